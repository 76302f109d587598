// What the rule of a board says of claims, in any state that meets it.

ghost use Rattle.std.specs.Prelude.{◌≡◌, ℕ, ◌≤◌, [], true, Some, Option};
ghost use mathlib.Core.Option.{some};
ghost use lib.ListN.{get_elem?};
ghost use Rattle.atomic_table.specs.Table.{State};
ghost use Rattle.trex_claims.specs.declared.view.View.{View};
ghost use Rattle.trex_claims.specs.declared.view.CoreState.{CoreState};
ghost use Rattle.trex_claims.specs.Views.{total, held};
ghost use Rattle.trex_claims.specs.Board.{Rule, IsPiece};

use crate::piece::Piece;

/// In each state that meets the board's rule a core is claimed by one seat at most. Where the other seats are joined too, and the first
/// saw None and claims nothing, each slot holds a settled piece with the stem that was lent, and one turn more. That each step keeps the
/// rule is the promise of the table.
pub fn rules_keep_pieces<T: Piece>()
    ensures claims { (s : State (Option T) View) → Rule T.core_of T.turns_of T.stem_of T.is_settled s
        → (core : ℕ) → total (held core) s.views ≤ 1 }
    ensures pieces { (s : State (Option T) View) → Rule T.core_of T.turns_of T.stem_of T.is_settled s
        → (first : View) → get_elem? s.views 0 ≡ some first → first.round.running ≡ true → first.seats_out ≡ 0 → first.claim ≡ [] → first.saw_none ≡ true
        → (core : ℕ) (state : CoreState) → get_elem? first.round.cores core ≡ some state
        → (piece : T) × (get_elem? s.homes core ≡ some (some (Some piece))) × IsPiece T.core_of T.turns_of T.stem_of T.is_settled core state 1 piece }
{}
