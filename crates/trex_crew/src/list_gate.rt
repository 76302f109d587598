// A gate that keeps the list of its entries.

ghost use Rattle.std.specs.Prelude.{◌≡◌, ◌<◌, ◌++◌, ◌∷◌, [], false, length, IfOk};
ghost use Rattle.trex_crew.specs.Gates.{HasEntered, ListOf, told_by};

use crate::gate::Gate;
use std::alloc::Global;
use std::marker::Model;
use trex_io::Memory;

/// A gate that tells its entries, until there are more of them than it has room for; from then on it tells nothing.
#[derive(Drop)]
pub struct ListGate {
    entries: Vec<(u64, u32)>,
    room: usize,
    /// Whether there were more entries than there is room for.
    over: bool,
}

impl Model for ListGate {
    ghost use Rattle.std.specs.Prelude.{◌≤◌};
    ghost use Rattle.std.specs.Vec.{vec_capacity};
    ghost use Rattle.trex_crew.specs.Gates.{ListOf};

    ghost Value = { ListOf };

    ghost view = { λ g. record { entries = g.entries.items; room = g.room; over = g.over } };

    ghost invariant = { λ g. g.room ≤ vec_capacity g.entries };
}

impl ListGate {
    /// A gate with room for so many entries, which is taken here.
    pub fn new(alloc: Global, capacity: usize) -> Result<ListGate, Memory>
        ensures { IfOk result (λ g. g ≡ record { entries = []; room = capacity; over = false }) }
    {
        let entries = Vec::with_capacity(alloc, capacity)?;
        Ok(ListGate {
            entries,
            room: capacity,
            over: false,
        })
    }

    /// The rounds and cores of the entries, in order, as far as there was room for them.
    pub fn entries(&self) -> &[(u64, u32)]
        ensures { result.now ≡ self.now.entries }
    {
        &self.entries
    }
}

impl Gate for ListGate {
    ghost use Rattle.trex_crew.specs.Gates.{told_by};

    ghost entries = { told_by };

    fn enter(&mut self, round: u64, core: u32)
        ensures entered { HasEntered (told_by self.old) (told_by self.new) round core }
        ensures list { length self.old.entries < self.old.room
            → self.new ≡ record { entries = self.old.entries ++ (round, core) ∷ []; room = self.old.room; over = self.old.over } }
        ensures room { self.new.room ≡ self.old.room }
    {
        if self.entries.len() < self.room {
            self.entries.push((round, core)).unwrap();
        } else {
            self.over = true;
        }
    }
}
