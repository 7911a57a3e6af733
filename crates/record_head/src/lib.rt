// The head of a record: written, read back and checked, and where the letters lie behind it.
#![tactic(auto)]

ghost use Rattle.std.specs.Prelude.{◌≡◌, true, ◌++◌, ◌≤◌, ◌<◌, ◌+◌, length, drop};
ghost use Rattle.grid.specs.Panel.{on_panel, good_panel};
ghost use Rattle.grid.specs.Bytes.{PartOf};
ghost use Rattle.record_head.specs.Head.{head_of, head_length, has_mark, head_in, steps_in, letters_in, check_head};

use grid::{Cell, Panel, Refusal, Steps, area_of, check_entry, ensure, panel_of};

// The mark (a magic number).
pub const MARK_HIGH: u8 = 0x46;

pub const MARK_LOW: u8 = 0x55;

const MARK: [u8; 2] = [MARK_HIGH, MARK_LOW];

// The number of bytes before the letters: two for the mark, one for the width, one for the height, two for the
// pitch, two for the entry, x first, and two for the step count.
pub const HEAD: usize = 10;

// The fields of a record's head.
#[derive(Clone, Copy, Debug, PartialEq, Eq)]
pub struct Head {
    pub panel: Panel,
    pub entry: Cell,
    pub steps: Steps,
}

// What the bytes of a head say; of the pitch and of the step count the high byte stands first.
impl From<[u8; HEAD]> for Head {
    ghost from_gives = { λ b h. h ≡ head_in b };

    fn from(bytes: [u8; HEAD]) -> Head {
        let [
            _,
            _,
            width,
            height,
            pitch_high,
            pitch_low,
            x,
            y,
            steps_high,
            steps_low,
        ] = bytes;
        Head {
            panel: panel_of(
                u32::from(width),
                u32::from(height),
                u32::from(u16::from_be_bytes([pitch_high, pitch_low])),
            ),
            entry: Cell::from([x, y]),
            steps: Steps(u32::from(u16::from_be_bytes([steps_high, steps_low]))),
        }
    }
}

// The bytes of a head.
fn bytes_of(h: Head) -> [u8; HEAD]
    requires good { good_panel h.panel ≡ true }
    requires on { on_panel h.panel h.entry ≡ true }
    requires few { h.steps.0 < 65536 }
    ensures { result ≡ head_of h.panel h.entry h.steps.0 }
{
    let [pitch_high, pitch_low] = (h.panel.pitch as u16).to_be_bytes();
    let [steps_high, steps_low] = (h.steps.0 as u16).to_be_bytes();
    [
        MARK_HIGH,
        MARK_LOW,
        h.panel.width as u8,
        h.panel.height as u8,
        pitch_high,
        pitch_low,
        h.entry.x as u8,
        h.entry.y as u8,
        steps_high,
        steps_low,
    ]
}

pub fn write_head(h: Head, out: &mut [u8])
    requires good { good_panel h.panel ≡ true }
    requires on { on_panel h.panel h.entry ≡ true }
    requires few { h.steps.0 < 65536 }
    requires room { head_length ≤ length out.old }
    ensures { out.new ≡ head_of h.panel h.entry h.steps.0 ++ drop head_length out.old }
{
    out[..HEAD].copy_from_slice(&bytes_of(h));
}

#[tactic(auto, unfolding(crate::specs::Head::has_mark))]
fn has_mark(file: &[u8]) -> bool
    ensures { result ≡ has_mark file.now }
{
    file.starts_with(&MARK)
}

pub fn head_in(file: &[u8]) -> Head
    requires { head_length ≤ length file.now }
    ensures { result ≡ head_in file.now }
{
    Head::from(*file.first_chunk::<HEAD>().unwrap())
}

// The stretch that holds the step letters.
pub fn letters_in<'a>(file: &'a [u8]) -> &'a [u8]
    requires { head_length + steps_in file.now ≤ length file.now }
    ensures { PartOf file.entry head_length (letters_in file.now) result }
{
    let end = HEAD + head_in(file).steps.0 as usize;
    &file[HEAD..end]
}

// What Read refuses before it looks at a letter.
pub fn check_head(file: &[u8]) -> Result<(), Refusal>
    ensures { result ≡ check_head file.now }
{
    ensure(has_mark(file), Refusal::Mark)?;
    ensure(HEAD <= file.len(), Refusal::CutShort)?;
    let h = head_in(file);
    let steps = h.steps.0 as usize;
    check_entry(h.panel, h.entry)?;
    ensure(steps < area_of(h.panel), Refusal::StepCount)?;
    ensure(HEAD + steps <= file.len(), Refusal::CutShort)
}
