// Puts text into a buffer, each part behind the one before, and gives the place behind it. The buffer and
// the place stay two parameters: other crates call so, and a struct of both would say `Put` of its fields.
ghost use Rattle.std.specs.Prelude.{◌≡◌, [], ◌∷◌, ◌≤◌, ◌<◌, ◌+◌, ◌-◌, length};
ghost use Rattle.text.specs.Part.{MutPartOf};
ghost use Rattle.text.specs.Decimal.{digit, decimal};
ghost use Rattle.text.specs.Field.{blank, field_of};
ghost use Rattle.text.specs.Put.{Put};

use crate::{BLANK, ZERO};

// The most digits that a number of 32 bits has.
const MOST_DIGITS: usize = 10;

// The byte of a digit.
pub fn digit_of(d: u32) -> u8
    requires { d < 10 }
    ensures { result ≡ digit d }
{
    ZERO + d as u8
}

#[tactic(auto, using(crate::proofs::Puts::put_one))]
pub fn put_byte(b: u8, out: &mut [u8], at: usize) -> usize
    requires { at + 1 ≤ length out.old }
    ensures { Put out.old at (b ∷ []) out.new result }
{
    out[at] = b;
    at + 1
}

#[tactic(auto, using(crate::proofs::Puts::put_copied))]
pub fn put_bytes(text: &[u8], out: &mut [u8], at: usize) -> usize
    requires { at + length text.now ≤ length out.old }
    ensures { Put out.old at text.now out.new result }
{
    let end = at + text.len();
    out[at..end].copy_from_slice(text);
    end
}

// The digits of a number, made from the last one on: the part of scratch that holds them, up to its end.
pub fn digits_of<'a>(n: u32, scratch: &'a mut [u8]) -> &'a mut [u8]
    requires { length (decimal n) ≤ length scratch.old }
    ensures { MutPartOf scratch.entry (length scratch.old - length (decimal n)) (decimal n) result }
{
    let room = scratch.len();
    let mut at = room;
    let mut rest = n;
    while 10 <= rest {
        at -= 1;
        scratch[at] = digit_of(rest % 10);
        rest = rest / 10;
    }
    at -= 1;
    scratch[at] = digit_of(rest);
    &mut scratch[at..]
}

// How many digits a number has.
#[tactic(auto, using(crate::proofs::Decimals::most_digits))]
pub fn count_digits(n: u32) -> usize
    ensures { result ≡ length (decimal n) }
{
    let mut room = [0; MOST_DIGITS];
    digits_of(n, &mut room).len()
}

// The digits are made beside the buffer, and copied.
#[tactic(auto, using(crate::proofs::Decimals::most_digits))]
pub fn put_decimal(n: u32, out: &mut [u8], at: usize) -> usize
    requires { at + length (decimal n) ≤ length out.old }
    ensures { Put out.old at (decimal n) out.new result }
{
    let mut room = [0; MOST_DIGITS];
    put_bytes(digits_of(n, &mut room), out, at)
}

// A number and the byte `end` behind it.
pub fn put_field(n: u32, end: u8, out: &mut [u8], at: usize) -> usize
    requires { at + length (field_of n end []) ≤ length out.old }
    ensures { Put out.old at (field_of n end []) out.new result }
{
    let next = put_decimal(n, out, at);
    put_byte(end, out, next)
}

// Two numbers, a blank between and the byte `end` behind.
pub fn put_two(a: u32, b: u32, end: u8, out: &mut [u8], at: usize) -> usize
    requires { at + length (field_of a blank (field_of b end [])) ≤ length out.old }
    ensures { Put out.old at (field_of a blank (field_of b end [])) out.new result }
{
    let next = put_field(a, BLANK, out, at);
    put_field(b, end, out, next)
}
