// The works of all cores, and their rounds: `round` gives each work one turn.

ghost use Rattle.std.specs.Prelude.{◌≡◌, ◌+◌, ◌<◌, ◌≤◌, ◌^◌, true, length, map, vec_len, IfOk};
ghost use Rattle.std.specs.List.{AllByRecursion};
ghost use Rattle.std.specs.Borrow.{sem};
ghost use Rattle.std.proofs.Props.{props};
ghost use Rattle.trex_claims.specs.Boards.{board_id, cores_of};
ghost use Rattle.trex_crew.specs.Told.{Entered};
ghost use Rattle.trex_crew.specs.Orders.{AreInOrder};
ghost use Rattle.trex_crew.specs.Rounds.{IsIdle, IsFirst-prop, IsEmpty-prop};

use crate::gate::{Gate, Open};
use crate::rounds::round_on_board;
use crate::turns::turn_by_one;
use std::alloc::Global;
use std::thread::Threads;
use trex_claims::{Board, Piece, Seat};
use trex_io::Memory;

/// The works of all cores, each of which takes one turn a round.
#[derive(Drop)]
pub struct Crew<T: Piece> {
    works: Vec<T>,
    /// The board on which the works are claimed in a round. All its slots are empty between two rounds.
    board: Board<T>,
    seat: Seat<T>,
    rounds: u64,
    ghost seated: { seat.table_id ≡ board_id board },
    ghost idle: { IsIdle (cores_of board) seat.me } by { Prim.hlevel (props, IsFirst-prop, IsEmpty-prop) },
    ghost counted: { seat.me.0.round.rounds ≤ rounds },
}

impl<T: Piece> Crew<T> {
    ghost use Rattle.trex_crew.specs.Crews.{works_of};
    ghost use Rattle.trex_crew.specs.Lending.{lends_works};
    ghost use Rattle.trex_crew.specs.Turns.{TookTurns};

    /// A crew of 1 to 64 works, of which work i has core i. Before the first round.
    pub fn new(alloc: Global, works: Vec<T>) -> Result<Crew<T>, Memory>
        requires one { 1 ≤ vec_len works }
        requires few { vec_len works ≤ 64 }
        requires cores { AreInOrder T.core_of 0 works.items }
        ensures works { IfOk result (λ crew. works_of crew ≡ works.items) }
        ensures rounds { IfOk result (λ crew. crew.rounds ≡ 0) }
    {
        let (board, seat) = Board::new(alloc, works.len() as u32)?;
        Ok(Crew {
            works,
            board,
            seat,
            rounds: 0,
        })
    }

    /// Every work takes one turn, which keeps its core and its stem, by as many workers in threads as there are gates, but at most one a
    /// core. Before the turn of core c in round r one of the gates is entered with (r, c). Where there is no gate, the caller's thread
    /// does all.
    pub fn round<R: Threads + Sync, G: Gate>(&mut self, rt: &R, gates: &mut [G])
        requires rounds { self.old.rounds < 2 ^ 40 }
        requires turns { AllByRecursion (λ work. T.turns_of work < 2 ^ 63) (works_of self.old) }
        ensures works { works_of self.new ≡ map T.turned (works_of self.old) }
        ensures kept { TookTurns T.core_of T.turns_of T.stem_of T.is_settled (works_of self.old) (works_of self.new) }
        ensures rounds { self.new.rounds ≡ self.old.rounds + 1 }
        ensures gates { 0 < length gates.old → Entered G.entries T.core_of (works_of self.old) self.old.rounds gates.old gates.new }
    {
        if gates.is_empty() {
            self.turn_all(rt, &mut [Open]);
        } else {
            self.turn_all(rt, gates);
        }
    }

    /// Every work takes one turn, at one gate or more. Where the caller changed which works there are, so that they aren't in order of
    /// core, one worker does all without the board.
    fn turn_all<R: Threads + Sync, G: Gate>(&mut self, rt: &R, gates: &mut [G])
        requires gates { 0 < length gates.old }
        requires rounds { self.old.rounds < 2 ^ 40 }
        requires turns { AllByRecursion (λ work. T.turns_of work < 2 ^ 63) (works_of self.old) }
        ensures works { works_of self.new ≡ map T.turned (works_of self.old) }
        ensures kept { TookTurns T.core_of T.turns_of T.stem_of T.is_settled (works_of self.old) (works_of self.new) }
        ensures rounds { self.new.rounds ≡ self.old.rounds + 1 }
        ensures gates { Entered G.entries T.core_of (works_of self.old) self.old.rounds gates.old gates.new }
    {
        if self.works.len() == self.board.cores() && is_in_order(&self.works) {
            let works = &mut self.works;
            round_on_board(rt, &self.board, &mut self.seat, works, gates, self.rounds);
        } else {
            turn_by_one(&mut self.works, &mut gates[0], self.rounds);
        }
        self.rounds += 1;
    }

    /// The works, in order of core.
    pub fn works(&self) -> &[T]
        ensures { result.now ≡ works_of self.now }
    {
        &self.works
    }

    /// The works, to be changed.
    pub fn works_mut(&mut self) -> &mut [T]
        ensures* lends { sem 𝓛 (lends_works T.row T.Piece self.entry result) }
        ensures works { result.now ≡ works_of self.old }
    {
        &mut self.works
    }

    /// How many rounds were made.
    pub fn rounds(&self) -> u64
        ensures { result ≡ self.now.rounds }
    {
        self.rounds
    }
}

/// Whether each work has the core that is its place, and there are 1 to 64.
fn is_in_order<T: Piece>(works: &[T]) -> bool
    ensures order { result ≡ true → AreInOrder T.core_of 0 works.now }
    ensures some { result ≡ true → 0 < length works.now }
    ensures few { result ≡ true → length works.now ≤ 64 }
{
    for (place, work) in works.iter().enumerate() {
        if work.core() as usize != place {
            return false;
        }
    }
    !works.is_empty() && works.len() <= 64
}
