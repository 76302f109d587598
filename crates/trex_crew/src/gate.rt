// What a worker enters before each turn: the trait `Gate`, and the gate that is always open.

ghost use Rattle.std.specs.Prelude.{ℕ, List, Option};
ghost use Rattle.trex_crew.specs.Gates.{HasEntered};

/// What a worker enters before the turn of a core in a round. It can't fail.
pub trait Gate: Send {
    /// The rounds and cores of its entries, in order, where it tells them.
    ghost entries: { Self → Option (List (ℕ × ℕ)) };

    /// Enters the gate before the turn of a core in a round, both from 0.
    fn enter(&mut self, round: u64, core: u32)
        ensures { HasEntered (entries self.old) (entries self.new) round core };
}

/// A gate that is always open, and tells nothing.
#[derive(Clone, Copy, Debug, Default, PartialEq, Eq, Drop)]
pub struct Open;

impl Gate for Open {
    ghost use Rattle.std.specs.Prelude.{None};

    ghost entries = { λ _. None };

    fn enter(&mut self, _round: u64, _core: u32) {}
}
