// Three pieces on a board, turned by one seat and by two.

ghost use Rattle.std.specs.Prelude.{◌≡◌, ◌≢◌, ℕ, ◌+◌, ◌<◌, ◌^◌, [], true, false, Some, OnSome};
ghost use Rattle.trex_claims.specs.Views.{IsFirst, IsFull};
ghost use Rattle.trex_claims.specs.Moves.{opening_view, state_at, HoldsNone};
ghost use Rattle.trex_claims.specs.Boards.{board_id, cores_of};

use std::test::Fail;
use trex_claims::{Board, CountingPiece, Piece, Seat};

/// Three pieces are lent to a new board, after 0, 4 and 9 turns.
fn lend_three(board: &Board<CountingPiece>, seat: &mut Seat<CountingPiece>)
    requires board { seat.old.table_id ≡ board_id board.now }
    requires cores { cores_of board.now ≡ 3 }
    requires new { seat.old.me ≡ (opening_view 3, []) }
    ensures board { seat.new.table_id ≡ seat.old.table_id }
    ensures full { (core : ℕ) → core < 3 → IsFull (state_at seat.new.me.0 core).slot }
    ensures few { (core : ℕ) → (state_at seat.new.me.0 core).turns < 2 ^ 63 }
    ensures free { HoldsNone seat.new.me }
    ensures first { IsFirst seat.new.me.0.role }
    ensures closed { seat.new.me.0.round.running ≡ false }
    ensures rounds { seat.new.me.0.round.rounds ≡ 0 }
{
    board.lend(seat, CountingPiece { core: 0, turns: 0 });
    board.lend(seat, CountingPiece { core: 1, turns: 4 });
    board.lend(seat, CountingPiece { core: 2, turns: 9 });
}

/// A core is drawn, and its piece takes a turn. None where no core is left.
fn turn_once(board: &Board<CountingPiece>, seat: &mut Seat<CountingPiece>, base: u64) -> Option<u32>
    requires board { seat.old.table_id ≡ board_id board.now }
    requires open { seat.old.me.0.round.running ≡ true }
    requires base { base ≡ seat.old.me.0.round.base }
    requires free { HoldsNone seat.old.me }
    requires no_none_yet { seat.old.me.0.saw_none ≡ false }
    requires few { (core : ℕ) → (state_at seat.old.me.0 core).turns < 2 ^ 63 }
    ensures board { seat.new.table_id ≡ seat.old.table_id }
    ensures round { seat.new.me.0.round ≡ seat.old.me.0.round }
    ensures role { seat.new.me.0.role ≡ seat.old.me.0.role }
    ensures seats_out { seat.new.me.0.seats_out ≡ seat.old.me.0.seats_out }
    ensures free { HoldsNone seat.new.me }
    ensures no_none_yet { OnSome result (seat.new.me.0.saw_none ≡ false) }
{
    let claim = board.draw(seat, base)?;
    let core = claim.core();
    let mut piece = board.take(seat, &claim);
    piece.turn();
    board.put(seat, claim, piece);
    Some(core)
}

/// A piece is fetched, and the others stay.
fn fetch_one(
    board: &Board<CountingPiece>,
    seat: &mut Seat<CountingPiece>,
    core: u32,
) -> CountingPiece
    requires board { seat.old.table_id ≡ board_id board.now }
    requires cores { cores_of board.now ≡ 3 }
    requires first { IsFirst seat.old.me.0.role }
    requires alone { seat.old.me.0.seats_out ≡ 0 }
    requires free { HoldsNone seat.old.me }
    requires core { core < 3 }
    requires full { IsFull (state_at seat.old.me.0 core).slot }
    ensures board { seat.new.table_id ≡ seat.old.table_id }
    ensures first { IsFirst seat.new.me.0.role }
    ensures alone { seat.new.me.0.seats_out ≡ 0 }
    ensures free { HoldsNone seat.new.me }
    ensures others { (other : ℕ) → other ≢ core → (state_at seat.new.me.0 other).slot ≡ (state_at seat.old.me.0 other).slot }
{
    board.fetch(seat, core)
}

/// The pieces are fetched in order of core.
fn fetch_three(board: &Board<CountingPiece>, seat: &mut Seat<CountingPiece>) -> [CountingPiece; 3]
    requires board { seat.old.table_id ≡ board_id board.now }
    requires cores { cores_of board.now ≡ 3 }
    requires first { IsFirst seat.old.me.0.role }
    requires alone { seat.old.me.0.seats_out ≡ 0 }
    requires free { HoldsNone seat.old.me }
    requires full { (core : ℕ) → core < 3 → IsFull (state_at seat.old.me.0 core).slot }
{
    let first = fetch_one(board, seat, 0);
    let second = fetch_one(board, seat, 1);
    let third = fetch_one(board, seat, 2);
    [first, second, third]
}

/// The pieces of cores 0 to 2 after these turns.
fn turned(turns: [u64; 3]) -> [CountingPiece; 3] {
    let [first, second, third] = turns;
    [
        CountingPiece {
            core: 0,
            turns: first,
        },
        CountingPiece {
            core: 1,
            turns: second,
        },
        CountingPiece {
            core: 2,
            turns: third,
        },
    ]
}

#[test]
fn three_draws_by_one_seat(rt: HostRuntime) -> Result<(), Fail> {
    let (board, mut seat) = Board::new(rt.alloc(), 3)?;
    lend_three(&board, &mut seat);
    let base = board.begin(&mut seat);
    let first = turn_once(&board, &mut seat, base).ok_or("no first core")?;
    let second = turn_once(&board, &mut seat, base).ok_or("no second core")?;
    let third = turn_once(&board, &mut seat, base).ok_or("no third core")?;
    assert_eq!(rt; [first, second, third], [0, 1, 2]);
    assert_eq!(rt; turn_once(&board, &mut seat, base), None);
    assert_eq!(rt; fetch_three(&board, &mut seat), turned([1, 5, 10]));
    Ok(())
}

#[test]
fn a_joined_seat_brings_its_puts(rt: HostRuntime) -> Result<(), Fail> {
    let (board, mut seat) = Board::new(rt.alloc(), 3)?;
    lend_three(&board, &mut seat);
    let base = board.begin(&mut seat);
    let mut other = board.split(&mut seat).unwrap();
    let first = turn_once(&board, &mut other, base).ok_or("no first core")?;
    let second = turn_once(&board, &mut seat, base).ok_or("no second core")?;
    assert_eq!(rt; [first, second], [0, 1]);
    board.join(&mut seat, other);
    assert_eq!(rt; fetch_three(&board, &mut seat), turned([1, 5, 9]));
    Ok(())
}
