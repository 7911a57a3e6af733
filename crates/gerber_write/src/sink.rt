// Where the text of a layer goes: into a buffer, or only counted.
ghost use Rattle.std.specs.Prelude.{◌≡◌, ℕ, [], ◌+◌, ◌<◌, ◌≤◌, List, length};
ghost use Rattle.text.specs.Field.{field_of};
ghost use Rattle.gerber_write.specs.Write.{digit_room};
ghost use Rattle.gerber_write.specs.Sink.{Puts, SizedLaws};
ghost use Rattle.gerber_write.specs.Taken.{counted_sized, put_sized};

use text::{count_digits, digits_of, put_byte, put_bytes};

// A text is taken where it fits, each behind the one before.
pub(crate) trait Sink {
    ghost Fits: { Self → List ℕ → Type 0 };

    ghost Takes: { Self → List ℕ → Self → Type 0 };

    fn text(&mut self, text: &[u8])
        requires { Fits self.old text.now }
        ensures { Takes self.old text.now self.new };

    // A number in base ten and the byte `end` behind it.
    fn number(&mut self, n: u32, end: u8)
        requires { Fits self.old (field_of n end []) }
        ensures { Takes self.old (field_of n end []) self.new };

    ghost laws: { SizedLaws Fits Takes };
}

// Puts text into a buffer from a place on. A number's digits are made in bytes that are lent for them.
#[derive(Drop)]
pub(crate) struct Pen<'a> {
    pub(crate) digits: &'a mut [u8],
    pub(crate) out: &'a mut [u8],
    pub(crate) at: usize,
    ghost room_for_digits: { digit_room ≤ length digits.now },
}

impl Sink for Pen<'_> {
    ghost Fits = { λ s t. s.at + length t ≤ length s.out.now };

    ghost Takes = { λ s t e. Puts s.out s.at t e.out e.at };

    ghost laws = { put_sized (λ s. s.out) (λ s. s.at) };

    fn text(&mut self, text: &[u8]) {
        self.at = put_bytes(text, self.out, self.at);
    }

    #[tactic(auto, using(text::proofs::Decimals::most_digits))]
    fn number(&mut self, n: u32, end: u8) {
        let digits = digits_of(n, self.digits);
        let next = put_bytes(digits, self.out, self.at);
        self.at = put_byte(end, self.out, next);
    }
}

// Counts the bytes, of which a layer has 442,422 at most.
#[derive(Drop)]
pub(crate) struct Meter {
    pub(crate) bytes: usize,
}

impl Sink for Meter {
    ghost Fits = { λ s t. s.bytes + length t ≤ 442422 };

    ghost Takes = { λ s t e. e.bytes ≡ s.bytes + length t };

    ghost laws = { counted_sized (λ s. s.bytes) 442422 };

    fn text(&mut self, text: &[u8]) {
        self.bytes += text.len();
    }

    fn number(&mut self, n: u32, end: u8) {
        self.bytes += count_digits(n) + 1;
    }
}
