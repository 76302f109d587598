// The works of a crew are fetched from its board at the end of a round.

ghost use Rattle.std.specs.Prelude.{◌≡◌, ◌≢◌, ℕ, ◌+◌, ◌++◌, ◌∷◌, ◌<◌, ◌≤◌, [], true, length, vec_len};
ghost use Rattle.std.specs.Vec.{vec_capacity};
ghost use Rattle.trex_claims.specs.Board.{IsPiece, below};
ghost use Rattle.trex_claims.specs.Boards.{board_id, cores_of};
ghost use Rattle.trex_claims.specs.Moves.{HoldsNone, round_closed, state_at};
ghost use Rattle.trex_claims.specs.Views.{IsFirst, IsEmpty, IsFull, times};
ghost use Rattle.trex_crew.specs.Rounds.{IsCalm, AreEmpty, ArePieces};

use trex_claims::{Board, Piece, Seat};

/// Fetches the work of a core, and puts it after the others.
fn fetch_one<T: Piece>(board: &Board<T>, seat: &mut Seat<T>, works: &mut Vec<T>, core: u32)
    requires board { seat.old.table_id ≡ board_id board.now }
    requires first { IsFirst seat.old.me.0.role }
    requires alone { seat.old.me.0.seats_out ≡ 0 }
    requires free { HoldsNone seat.old.me }
    requires core { core < cores_of board.now }
    requires full { IsFull (state_at seat.old.me.0 core).slot }
    requires room { vec_len works.old < vec_capacity works.old }
    ensures board { seat.new.table_id ≡ seat.old.table_id }
    ensures calm { IsCalm (cores_of board.now) seat.old.me.0.round.rounds seat.new.me }
    ensures alone { seat.new.me.0.seats_out ≡ 0 }
    ensures empty { IsEmpty (state_at seat.new.me.0 core).slot }
    ensures others { (other : ℕ) → other ≢ core → state_at seat.new.me.0 other ≡ state_at (round_closed seat.old.me.0) other }
    ensures works { (work : T) × (works.new.items ≡ works.old.items ++ work ∷ [])
        × IsPiece T.core_of T.turns_of T.stem_of T.is_settled core (state_at (round_closed seat.old.me.0) core) 0 work }
    ensures room { vec_capacity works.new ≡ vec_capacity works.old }
    ensures each_once { seat.old.me.0.round.running ≡ true → seat.old.me.0.saw_none ≡ true
        → (other : ℕ) → times other seat.old.me.0.done ≡ below other (cores_of board.now) }
{
    works.push_reserved(board.fetch(seat, core));
}

/// Fetches all works, in order of core, at the end of a round.
pub(crate) fn fetch_all<T: Piece>(
    board: &Board<T>,
    seat: &mut Seat<T>,
    works: &mut Vec<T>,
    count: u32,
)
    requires board { seat.old.table_id ≡ board_id board.now }
    requires first { IsFirst seat.old.me.0.role }
    requires alone { seat.old.me.0.seats_out ≡ 0 }
    requires free { HoldsNone seat.old.me }
    requires open { seat.old.me.0.round.running ≡ true }
    requires saw_none { seat.old.me.0.saw_none ≡ true }
    requires count { count ≡ cores_of board.now }
    requires some { 0 < count }
    requires full { (core : ℕ) → core < count → IsFull (state_at seat.old.me.0 core).slot }
    requires none { works.old.items ≡ [] }
    requires room { count ≤ vec_capacity works.old }
    ensures board { seat.new.table_id ≡ seat.old.table_id }
    ensures calm { IsCalm (cores_of board.now) seat.old.me.0.round.rounds seat.new.me }
    ensures empty { AreEmpty (cores_of board.now) seat.new.me.0 }
    ensures works { ArePieces T.core_of T.turns_of T.stem_of T.is_settled (round_closed seat.old.me.0) 0 works.new.items }
    ensures length { length works.new.items ≡ count }
    ensures each_once { (other : ℕ) → times other seat.old.me.0.done ≡ below other count }
{
    for core in 0..count {
        fetch_one(board, seat, works, core);
    }
}
