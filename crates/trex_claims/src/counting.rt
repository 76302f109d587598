// A piece that counts its turns: as a source in memory stands for a source, it stands for a piece in tests of what gives turns.

use crate::piece::Piece;

/// A piece of work that does nothing but count its turns.
#[derive(Clone, Copy, Debug, PartialEq, Eq, Drop)]
pub struct CountingPiece {
    /// The core.
    pub core: u32,
    /// How many turns it took.
    pub turns: u64,
}

impl Piece for CountingPiece {
    ghost use Rattle.std.specs.Prelude.{◌+◌, []};

    ghost core_of = { λ c. c.core };

    ghost turns_of = { λ c. c.turns };

    ghost stem_of = { λ _. [] };

    ghost is_settled = { λ _. Unit {0} };

    ghost turned = { λ c. record { core = c.core; turns = c.turns + 1 } };

    ghost is_turned = { λ old new sound core turns stem settled i. record { core = core i; turns = turns i } };

    fn core(&self) -> u32 {
        self.core
    }

    fn turns(&self) -> u64 {
        self.turns
    }

    fn turn(&mut self) {
        self.turns += 1;
    }
}
