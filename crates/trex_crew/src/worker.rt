// One worker of a round, which draws cores from the board and gives their pieces their turns.

ghost use Rattle.std.specs.Prelude.{◌≡◌, ◌<◌, ◌^◌, [], ◌∷◌, Some};
ghost use Rattle.trex_claims.specs.Board.{IsPiece};
ghost use Rattle.trex_claims.specs.Boards.{board_id, cores_of};
ghost use Rattle.trex_claims.specs.Moves.{after_put, state_at};
ghost use Rattle.trex_crew.specs.Gates.{HasEntered};
ghost use Rattle.trex_crew.specs.Workers.{MayDraw, HasDrawn, Worked};

use crate::gate::Gate;
use crate::turns::take_turn;
use trex_claims::{Board, Claim, Piece, Seat};

/// Enters the gate, and then gives the claimed piece its turn and puts it back.
fn turn_claimed<T: Piece, G: Gate>(
    board: &Board<T>,
    seat: &mut Seat<T>,
    claim: Claim,
    gate: &mut G,
    round: u64,
)
    requires board { seat.old.table_id ≡ board_id board.now }
    requires core { claim.core < cores_of board.now }
    requires claim { seat.old.me.0.claim ≡ claim.core ∷ [] }
    requires piece { (piece : T) × (seat.old.me.1 ≡ (claim.core, Some piece) ∷ [])
        × IsPiece T.core_of T.turns_of T.stem_of T.is_settled claim.core (state_at seat.old.me.0 claim.core) 0 piece }
    requires turns { (state_at seat.old.me.0 claim.core).turns < 2 ^ 63 }
    ensures board { seat.new.table_id ≡ seat.old.table_id }
    ensures seat { seat.new.me ≡ (after_put seat.old.me.0, []) }
    ensures gate { HasEntered (G.entries gate.old) (G.entries gate.new) round claim.core }
{
    gate.enter(round, claim.core());
    let mut piece = board.take(seat, &claim);
    take_turn(&mut piece, gate, round);
    board.put(seat, claim, piece);
}

/// Draws until no core is left, and gives each piece that it draws its turn.
pub(crate) fn work<T: Piece, G: Gate>(
    board: &Board<T>,
    seat: &mut Seat<T>,
    gate: &mut G,
    base: u64,
    round: u64,
)
    requires board { seat.old.table_id ≡ board_id board.now }
    requires ready { MayDraw base seat.old.me }
    ensures board { seat.new.table_id ≡ seat.old.table_id }
    ensures drawn { HasDrawn seat.old.me seat.new.me }
    ensures gate { Worked G.entries round (gate.old ∷ []) (gate.new ∷ []) seat.old.me.0.done seat.new.me.0.done }
{
    while let Some(claim) = board.draw(seat, base) {
        turn_claimed(board, seat, claim, gate, round);
    }
}
