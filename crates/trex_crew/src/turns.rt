// Turns of works, each behind its gate, by one worker.

ghost use Rattle.std.specs.Prelude.{◌≡◌, ◌+◌, ◌<◌, ◌^◌, [], ◌∷◌, map};
ghost use Rattle.std.specs.List.{AllByRecursion};
ghost use Rattle.trex_crew.specs.Gates.{HasEntered, LastIs};
ghost use Rattle.trex_crew.specs.Told.{Entered};
ghost use Rattle.trex_crew.specs.Turns.{TookTurn, TookTurns};

use crate::gate::Gate;
use trex_claims::Piece;

/// A work takes its turn, for which the gate was entered. The gate and the round are there for the proof of that alone.
pub(crate) fn take_turn<T: Piece, G: Gate>(work: &mut T, _gate: &G, _round: u64)
    requires entered { LastIs (G.entries _gate.now) _round (T.core_of work.old) }
    requires turns { T.turns_of work.old < 2 ^ 63 }
    ensures turned { work.new ≡ T.turned work.old }
    ensures core { T.core_of work.new ≡ T.core_of work.old }
    ensures turns { T.turns_of work.new ≡ T.turns_of work.old + 1 }
    ensures stem { T.stem_of work.new ≡ T.stem_of work.old }
    ensures settled { T.is_settled work.new }
{
    work.turn();
}

/// Enters the gate, and then gives the work its turn.
fn turn_one<T: Piece, G: Gate>(work: &mut T, gate: &mut G, round: u64)
    requires { T.turns_of work.old < 2 ^ 63 }
    ensures work { work.new ≡ T.turned work.old }
    ensures kept { TookTurn T.core_of T.turns_of T.stem_of T.is_settled work.old work.new }
    ensures gate { HasEntered (G.entries gate.old) (G.entries gate.new) round (T.core_of work.old) }
{
    gate.enter(round, work.core());
    take_turn(work, gate, round);
}

/// Gives each work its turn, in order, at one gate.
pub(crate) fn turn_by_one<T: Piece, G: Gate>(works: &mut [T], gate: &mut G, round: u64)
    requires { AllByRecursion (λ work. T.turns_of work < 2 ^ 63) works.old }
    ensures works { works.new ≡ map T.turned works.old }
    ensures kept { TookTurns T.core_of T.turns_of T.stem_of T.is_settled works.old works.new }
    ensures gate { Entered G.entries T.core_of works.old round (gate.old ∷ []) (gate.new ∷ []) }
{
    for work in works.iter_mut() {
        turn_one(work, gate, round);
    }
}
