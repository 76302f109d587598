// The works of a crew are lent to its board at the beginning of a round.

ghost use Rattle.std.specs.Prelude.{◌≡◌, ◌≢◌, ℕ, ◌+◌, ◌<◌, [], length};
ghost use Rattle.std.specs.Vec.{vec_capacity};
ghost use Rattle.trex_claims.specs.Boards.{board_id, cores_of};
ghost use Rattle.trex_claims.specs.Moves.{state_at};
ghost use Rattle.trex_crew.specs.Orders.{AreInOrder};
ghost use Rattle.trex_crew.specs.Rounds.{IsCalm, AreEmpty, IsLent, AreLent};

use trex_claims::{Board, Piece, Seat};

/// Lends the board a work.
fn lend_one<T: Piece>(board: &Board<T>, seat: &mut Seat<T>, work: T)
    requires board { seat.old.table_id ≡ board_id board.now }
    requires calm { IsCalm (cores_of board.now) seat.old.me.0.round.rounds seat.old.me }
    requires core { T.core_of work < cores_of board.now }
    requires empty { AreEmpty (T.core_of work + 1) seat.old.me.0 }
    ensures board { seat.new.table_id ≡ seat.old.table_id }
    ensures calm { IsCalm (cores_of board.now) seat.old.me.0.round.rounds seat.new.me }
    ensures lent { IsLent T.turns_of T.stem_of T.is_sound (state_at seat.new.me.0 (T.core_of work)) work }
    ensures others { (other : ℕ) → other ≢ T.core_of work → state_at seat.new.me.0 other ≡ state_at seat.old.me.0 other }
{
    board.lend(seat, work);
}

/// Lends all works, from the last one on.
pub(crate) fn lend_all<T: Piece>(board: &Board<T>, seat: &mut Seat<T>, works: &mut Vec<T>)
    requires board { seat.old.table_id ≡ board_id board.now }
    requires calm { IsCalm (cores_of board.now) seat.old.me.0.round.rounds seat.old.me }
    requires some { 0 < length works.old.items }
    requires cores { length works.old.items ≡ cores_of board.now }
    requires order { AreInOrder T.core_of 0 works.old.items }
    requires empty { AreEmpty (cores_of board.now) seat.old.me.0 }
    ensures board { seat.new.table_id ≡ seat.old.table_id }
    ensures calm { IsCalm (cores_of board.now) seat.old.me.0.round.rounds seat.new.me }
    ensures lent { AreLent T.turns_of T.stem_of T.is_sound seat.new.me.0 0 works.old.items }
    ensures works { works.new.items ≡ [] }
    ensures room { vec_capacity works.new ≡ vec_capacity works.old }
{
    while let Some(work) = works.pop() {
        lend_one(board, seat, work);
    }
}
