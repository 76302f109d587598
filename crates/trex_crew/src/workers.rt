// The workers of a round, in threads: one for each gate.

ghost use Rattle.std.specs.Prelude.{◌≡◌, ◌+◌, ◌<◌, ◌≤◌, [], ◌++◌, length};
ghost use Rattle.std.specs.Thread.{IsSync};
ghost use Rattle.trex_claims.specs.Boards.{board_id};
ghost use Rattle.trex_claims.specs.Views.{IsFirst};
ghost use Rattle.trex_crew.specs.Workers.{MayDraw, HasDrawn, Worked};

use crate::gate::Gate;
use crate::worker::work;
use std::thread::{Threads, join_mut};
use trex_claims::{Board, Piece, Seat};

/// What the workers of a round share.
#[derive(Drop)]
pub(crate) struct Site<'a, R: Threads + Sync, T: Piece> {
    pub(crate) rt: &'a R,
    pub(crate) board: &'a Board<T>,
    /// The round's base on the board.
    pub(crate) base: u64,
    /// The round's number for the gates.
    pub(crate) round: u64,
}

/// One worker, at the only gate of a part.
fn work_first<R: Threads + Sync, T: Piece, G: Gate>(
    site: &Site<'_, R, T>,
    seat: &mut Seat<T>,
    gates: &mut [G],
)
    requires board { seat.old.table_id ≡ board_id site.now.board.now }
    requires ready { MayDraw site.now.base seat.old.me }
    requires gates { length gates.old ≡ 1 }
    ensures board { seat.new.table_id ≡ seat.old.table_id }
    ensures drawn { HasDrawn seat.old.me seat.new.me }
    ensures gates { Worked G.entries site.now.round gates.old gates.new seat.old.me.0.done seat.new.me.0.done }
{
    work(site.board, seat, &mut gates[0], site.base, site.round);
}

/// A worker for each of the gates: a seat is split off for the first gate, and this one, with the seats that are split off after it, works
/// at the rest.
#[cycle(workers)]
pub(crate) fn work_by_gates<R: Threads + Sync, T: Piece, G: Gate>(
    site: &Site<'_, R, T>,
    seat: &mut Seat<T>,
    gates: &mut [G],
)
    requires board { seat.old.table_id ≡ board_id site.now.board.now }
    requires first { IsFirst seat.old.me.0.role }
    requires ready { MayDraw site.now.base seat.old.me }
    requires some { 0 < length gates.old }
    requires seats_left { length gates.old ≤ seat.old.me.0.seats_left + 1 }
    ensures board { seat.new.table_id ≡ seat.old.table_id }
    ensures drawn { HasDrawn seat.old.me seat.new.me }
    ensures gates { Worked G.entries site.now.round gates.old gates.new seat.old.me.0.done seat.new.me.0.done }
{
    if gates.len() < 2 {
        work_first(site, seat, gates);
    } else {
        let mut other = site.board.split(seat).unwrap();
        let (left, right) = gates.split_at_mut(1);
        work_in_threads(site, seat, &mut other, left, right);
        site.board.join(seat, other);
    }
}

/// Each of the two seats works at its part of the gates, in a thread of its own.
#[cycle(workers)]
fn work_in_threads<R: Threads + Sync, T: Piece, G: Gate>(
    site: &Site<'_, R, T>,
    seat: &mut Seat<T>,
    other: &mut Seat<T>,
    left: &mut [G],
    right: &mut [G],
)
    requires board { seat.old.table_id ≡ board_id site.now.board.now }
    requires other_board { other.old.table_id ≡ board_id site.now.board.now }
    requires first { IsFirst seat.old.me.0.role }
    requires ready { MayDraw site.now.base seat.old.me }
    requires other_ready { MayDraw site.now.base other.old.me }
    requires left { length left.old ≡ 1 }
    requires right { 0 < length right.old }
    requires seats_left { length right.old ≤ seat.old.me.0.seats_left + 1 }
    ensures board { seat.new.table_id ≡ seat.old.table_id }
    ensures other_board { other.new.table_id ≡ other.old.table_id }
    ensures drawn { HasDrawn seat.old.me seat.new.me }
    ensures other_drawn { HasDrawn other.old.me other.new.me }
    ensures left { Worked G.entries site.now.round left.old left.new other.old.me.0.done other.new.me.0.done }
    ensures right { Worked G.entries site.now.round right.old right.new seat.old.me.0.done seat.new.me.0.done }
{
    join_mut(
        site.rt,
        &mut ||
            requires { IsSync R.row × (other.now.table_id ≡ board_id site.now.board.now) × MayDraw site.now.base other.now.me
                × (length left.now ≡ 1) }
            ensures { (other.exit.now.table_id ≡ other.entry.now.table_id) × HasDrawn other.entry.now.me other.exit.now.me
                × Worked G.entries site.entry.now.round left.entry.now left.exit.now other.entry.now.me.0.done other.exit.now.me.0.done }
        { work_first(site, other, left) },
        &mut ||
            requires { IsSync R.row × (seat.now.table_id ≡ board_id site.now.board.now) × IsFirst seat.now.me.0.role
                × MayDraw site.now.base seat.now.me × (0 < length right.now) × (length right.now ≤ seat.now.me.0.seats_left + 1) }
            ensures { (seat.exit.now.table_id ≡ seat.entry.now.table_id) × HasDrawn seat.entry.now.me seat.exit.now.me
                × Worked G.entries site.entry.now.round right.entry.now right.exit.now seat.entry.now.me.0.done seat.exit.now.me.0.done }
        { work_by_gates(site, seat, right) },
    );
}
