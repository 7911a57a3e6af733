// Turns of calls, timed by the processor's clock. The times go to standard error, so that standard output is
// the same in every run.
use std::io;
use std::time::CpuClock;

// How many turns are timed, and how many microseconds one is to take at least; how often its calls are
// doubled for that.
pub const TURNS: u32 = 8;

const LEAST: u64 = 2000;

pub const DOUBLED: u32 = 16;

// How long a turn took, and a sum over what it gave, so that none of it may be left out.
#[derive(Clone, Copy, Debug, PartialEq, Eq)]
pub struct Turn {
    pub micros: u64,
    pub sum: u32,
}

// The processor's time so far, or 0 where the clock can't be read.
pub fn micros(rt: &impl CpuClock) -> u64 {
    match rt.process_cpu_time() {
        Ok(t) => {
            let whole = t.as_secs().wrapping_mul(1000000);
            whole.wrapping_add(u64::from(t.subsec_micros()))
        }
        Err(_) => 0,
    }
}

// The turn that began at `start` and ends now.
pub fn turn_from(rt: &impl CpuClock, start: u64, sum: u32) -> Turn {
    Turn {
        micros: micros(rt).wrapping_sub(start),
        sum,
    }
}

pub fn long_enough(t: Turn) -> bool {
    LEAST <= t.micros
}

// Of two that are equally short the first.
pub fn shorter(a: Turn, b: Turn) -> Turn {
    if b.micros < a.micros { b } else { a }
}

// Tenths of a nanosecond for each call.
pub fn each(t: Turn, calls: u32) -> u64 {
    if calls == 0 {
        return 0;
    }
    t.micros % 1000000000 * 10000 / u64::from(calls)
}

// ASCII bytes to standard error, whose handle prints characters.
pub fn say(rt: &impl Eprint, s: &[u8]) -> io::Result<()> {
    for b in s {
        let character = char::from(*b);
        eprint!(rt; "{character}")?;
    }
    Ok(())
}

// The time of a call, and the sum of its turn.
pub fn say_time(rt: &impl Eprint, time: u64, sum: u32) -> io::Result<()> {
    eprint!(rt; "{time} (sum {sum})")
}
