// The call with a part of a buffer for scratch.
use grid::Panel;
use logs::{LogCounts, compare};

// What Compare is called with: the panel, both logs, and how many bytes of scratch are lent.
#[derive(Clone, Copy)]
pub struct Job<'a> {
    pub panel: Panel,
    pub burned: &'a [u8],
    pub seen: &'a [u8],
    pub room: usize,
}

// What Compare answers, a refusal by its number.
pub fn called(j: Job, scratch: &mut [u8]) -> Result<LogCounts, u32> {
    let room = j.room.min(scratch.len());
    compare(j.panel, j.burned, j.seen, &mut scratch[..room]).map_err(|r| u32::from(r))
}

// The numbers of an answer: the refusal's, 0 where nothing is refused, and those of the cells, 0 where refused.
pub fn numbers_of(a: Result<LogCounts, u32>) -> [u32; 5] {
    match a {
        Err(refusal) => [refusal, 0, 0, 0, 0],
        Ok(k) => [0, k.both.0, k.only_burned.0, k.only_seen.0, k.earlier.0],
    }
}
