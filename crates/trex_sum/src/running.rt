// The sum of bytes that go by in pieces.

ghost use Rattle.std.specs.Prelude.{◌≡◌, ◌+◌, ◌*◌, ◌^◌, ◌<◌, ◌≤◌, List, ℕ, [], ◌∷◌, ◌++◌, length, if◌then◌else◌};
ghost use Rattle.trex_sum.specs.Checksum.{sum_of};
ghost use Rattle.trex_sum.specs.Running.{running};

use crate::sums::sum_words;

/// The plain sum of bytes that go by in pieces of any length (RFC 1071, section 1).
#[derive(Clone, Copy, Debug, PartialEq, Eq)]
pub struct RunningSum {
    sum: u64,
    /// Whether the next byte ends a word.
    odd: bool,
}

/// The sum of a piece whose first byte ends a word where `odd` is set, and begins one elsewhere.
fn sum_after(odd: bool, piece: &[u8]) -> u64
    requires { length piece.now < 2 ^ 40 }
    ensures value { result ≡ sum_of (if odd then 0 ∷ piece.now else piece.now) }
    ensures bound { result ≤ 65536 * length piece.now }
{
    match piece {
        [low, rest @ ..] if odd => u64::from(*low) + sum_words(rest),
        _ => sum_words(piece),
    }
}

impl RunningSum {
    /// The sum of no bytes.
    pub fn new() -> RunningSum
        ensures { result ≡ running [] }
    {
        RunningSum { sum: 0, odd: false }
    }

    /// Adds the bytes that follow.
    pub fn add(&mut self, piece: &[u8])
        requires short { length piece.now < 2 ^ 40 }
        requires room { self.old.sum + 65536 * length piece.now < 2 ^ 64 }
        ensures value { (front : List ℕ) → self.old ≡ running front → self.new ≡ running (front ++ piece.now) }
        ensures bound { self.new.sum ≤ self.old.sum + 65536 * length piece.now }
    {
        self.sum += sum_after(self.odd, piece);
        if piece.len() % 2 == 1 {
            self.odd = !self.odd;
        }
    }

    /// The sum of all bytes so far.
    pub fn sum(&self) -> u64
        ensures { result ≡ self.now.sum }
    {
        self.sum
    }
}
