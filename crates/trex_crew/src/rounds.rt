// A round on the board: the works are lent, claimed by workers, and fetched.

ghost use Rattle.std.specs.Prelude.{◌≡◌, ◌+◌, ◌<◌, ◌≤◌, ◌^◌, length, map};
ghost use Rattle.std.specs.List.{AllByRecursion};
ghost use Rattle.trex_claims.specs.Boards.{board_id, cores_of};
ghost use Rattle.trex_crew.specs.Orders.{AreInOrder};
ghost use Rattle.trex_crew.specs.Told.{Entered};
ghost use Rattle.trex_crew.specs.Rounds.{IsCalm, AreEmpty};
ghost use Rattle.trex_crew.specs.Turns.{TookTurns};

use crate::fetching::fetch_all;
use crate::gate::Gate;
use crate::lending::lend_all;
use crate::workers::{Site, work_by_gates};
use std::thread::Threads;
use trex_claims::{Board, Piece, Seat};

/// Every work takes one turn, by a worker for each gate, but at most one a core. The works are lent to the board, the workers claim their
/// cores there, and then the works are fetched.
pub(crate) fn round_on_board<R: Threads + Sync, T: Piece, G: Gate>(
    rt: &R,
    board: &Board<T>,
    seat: &mut Seat<T>,
    works: &mut Vec<T>,
    gates: &mut [G],
    round: u64,
)
    requires board { seat.old.table_id ≡ board_id board.now }
    requires calm { IsCalm (cores_of board.now) seat.old.me.0.round.rounds seat.old.me }
    requires rounds { seat.old.me.0.round.rounds < 2 ^ 40 }
    requires empty { AreEmpty (cores_of board.now) seat.old.me.0 }
    requires some { 0 < length works.old.items }
    requires few { length works.old.items ≤ 64 }
    requires cores { length works.old.items ≡ cores_of board.now }
    requires order { AreInOrder T.core_of 0 works.old.items }
    requires turns { AllByRecursion (λ work. T.turns_of work < 2 ^ 63) works.old.items }
    requires gates { 0 < length gates.old }
    ensures board { seat.new.table_id ≡ seat.old.table_id }
    ensures calm { IsCalm (cores_of board.now) (seat.old.me.0.round.rounds + 1) seat.new.me }
    ensures empty { AreEmpty (cores_of board.now) seat.new.me.0 }
    ensures works { works.new.items ≡ map T.turned works.old.items }
    ensures kept { TookTurns T.core_of T.turns_of T.stem_of T.is_settled works.old.items works.new.items }
    ensures gates { Entered G.entries T.core_of works.old.items round gates.old gates.new }
{
    let workers = gates.len().min(works.len());
    let count = works.len() as u32;
    lend_all(board, seat, works);
    let base = board.begin(seat);
    let site = Site {
        rt,
        board,
        base,
        round,
    };
    work_by_gates(&site, seat, &mut gates[..workers]);
    fetch_all(board, seat, works, count);
}
