// What a source is: a place from which bytes come, piece by piece.

ghost use Rattle.std.specs.Prelude.{ℕ, List, Option};
ghost use Rattle.std.specs.Io.{ReadsAtMost};
ghost use Rattle.std.specs.Io.KnownBytes.{ReadConsumes};
ghost use Rattle.trex_io.specs.Faults.{HasCause};

use crate::fault::Failed;

/// Where bytes come from. A source has a count of faults that never falls. Its contract may tell the bytes that it has left;
/// that of a stream of the system tells none.
pub trait Source {
    /// The bytes that it has left, where it tells them.
    ghost left: { Self → Option (List ℕ) };

    /// How often it has failed. The count stands still at the last value of a u64.
    ghost faults: { Self → ℕ };

    /// Puts the next bytes into the front of `into`, and answers how many. `Ok(0)` with room comes only at the end.
    /// `Failed` comes only where the count of faults rose, and nothing was then taken.
    fn read(&mut self, into: &mut [u8]) -> Result<usize, Failed>
        ensures bound { ReadsAtMost result into.new }
        ensures bytes { ReadConsumes (left self.old) (left self.new) result into.new }
        ensures cause { HasCause faults self.old self.new result };
}
