// What a sink is: a place where bytes go, piece by piece.

ghost use Rattle.std.specs.Prelude.{ℕ, List, Option, ◌<◌, length, IfOk};
ghost use Rattle.std.specs.Io.{WritesAtMost};
ghost use Rattle.std.specs.Io.KnownBytes.{WriteAppends};
ghost use Rattle.trex_io.specs.Faults.{HasCause};

use crate::fault::Failed;

/// Where bytes go. A sink has a count of faults that never falls. Its contract may tell the bytes that it holds; that of a
/// stream of the system tells none.
pub trait Sink {
    /// The bytes that it holds, where it tells them.
    ghost held: { Self → Option (List ℕ) };

    /// How often it has failed. The count stands still at the last value of a u64.
    ghost faults: { Self → ℕ };

    /// Takes the front of `piece`, at least one byte of a piece that isn't empty, and answers how many.
    /// `Failed` comes only where the count of faults rose, and nothing was then taken.
    fn write(&mut self, piece: &[u8]) -> Result<usize, Failed>
        ensures bound { WritesAtMost result piece.now }
        ensures some { IfOk result (λ n. 0 < length piece.now → 0 < n) }
        ensures bytes { WriteAppends (held self.old) (held self.new) result piece.now }
        ensures cause { HasCause faults self.old self.new result };
}
