// Reads a number in base ten and the byte that ends it.
ghost use Rattle.std.specs.Prelude.{◌≡◌, length, drop};
ghost use Rattle.text.specs.Front.{begins};
ghost use Rattle.text.specs.Field.{more_digits, ended, field, parsed};
ghost use Rattle.text.specs.Field.Parsed.{value};

use crate::{Field, ZERO};

// The number v, if it ends here: the byte `end` stands at i.
fn read_end(input: &[u8], v: u32, i: usize, end: u8) -> Option<Field>
    ensures { parsed input.now result ≡ ended end (value v (drop i input.now)) }
{
    if i < input.len() && input[i] == end {
        Some(Field {
            value: v,
            next: i + 1,
        })
    } else {
        None
    }
}

// The number that begins with v and goes on with the digits from `from` on. It stops where the
// number is too large: more digits do not make it less.
#[tactic(auto, using(crate::proofs::Reading::digit_too_large))]
fn read_digits(input: &[u8], v: u32, from: usize, end: u8) -> Option<Field>
    ensures { parsed input.now result ≡ ended end (more_digits v (drop from input.now)) }
{
    let mut sum = v;
    for i in from..input.len() {
        let b = input[i];
        if !b.is_ascii_digit() {
            return read_end(input, sum, i, end);
        }
        sum = sum.checked_mul(10)?.checked_add(u32::from(b - ZERO))?;
    }
    None
}

// A number at `from`, and the byte `end` behind it.
pub fn read_field(input: &[u8], from: usize, end: u8) -> Option<Field>
    ensures { parsed input.now result ≡ field end (drop from input.now) }
{
    let &b = input.get(from)?;
    if b == ZERO {
        return read_end(input, 0, from + 1, end);
    }
    if !b.is_ascii_digit() {
        return None;
    }
    read_digits(input, u32::from(b - ZERO), from + 1, end)
}

// The bytes of the input from a place on: none past its end.
fn rest_from(input: &[u8], at: usize) -> &[u8]
    ensures { result.now ≡ drop at input.now }
{
    input.get(at..).unwrap_or(&[])
}

// How many bytes of the input are from a place on.
pub fn bytes_from(input: &[u8], at: usize) -> usize
    ensures { result ≡ length (drop at input.now) }
{
    rest_from(input, at).len()
}

// Whether a text stands at a place of the input.
#[tactic(auto, using(crate::proofs::Fronts::starts_begins))]
pub fn text_at(text: &[u8], input: &[u8], at: usize) -> bool
    ensures { result ≡ begins text.now (drop at input.now) }
{
    rest_from(input, at).starts_with(text)
}
