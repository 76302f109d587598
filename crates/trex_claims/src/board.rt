// The board. The first seat lends it the pieces and begins a round, and splits off a seat for each further thread. Each seat draws until it
// sees None: a draw claims a core, whose piece the seat takes, turns, and puts back. Then the other seats are joined to the first, which
// fetches the pieces; the first fetch ends the round.

ghost use Rattle.std.specs.Prelude.{◌≡◌, ◌⊎◌, ℕ, ◌+◌, ◌<◌, ◌≤◌, ◌^◌, [], ◌∷◌, true, false, Some, None, IsOk, IfOk, IfSome, IfNone, MatchOption, length};
ghost use Rattle.trex_claims.specs.Views.{IsFirst, IsOther, IsFull, IsEmpty, times};
ghost use Rattle.trex_claims.specs.Board.{IsPiece, below};
ghost use Rattle.trex_claims.specs.Moves.{opening_view, round_opened, after_split, split_seat, after_join, after_empty_draw, after_put, round_closed, with_core, filled, emptied, state_at, with_slot, FitsAs, HoldsNone, DrewCore};

use crate::claim::Claim;
use crate::piece::Piece;
use crate::rule::{Begin, BoardRule, Draw, PutBackCore, ReturnSlot, SplitAndJoin, TakeSlot};
use crate::view::View;
use atomic_table::Table;
use std::alloc::Global;
use trex_io::Memory;

/// A seat of a board, which takes no memory. In clauses `me.0` is what it knows, and `me.1` has the slots that are out with it.
pub type Seat<T> = atomic_table::Seat<Option<T>, View>;

/// A board with a slot for the piece of each core. Threads share it by reference, each with a seat of its own.
#[derive(Drop)]
pub struct Board<T: Piece> {
    table: Table<Option<T>, View, u32, BoardRule<T>, Global>,
    ghost sized: { (table.shared.table_id.words ≡ table.shared.table_id.slots + 1) × (table.shared.table_id.slots ≤ 64) },
}

impl<T: Piece> Board<T> {
    ghost use Rattle.trex_claims.specs.Boards.{board_id, cores_of};

    /// A board of 1 to 64 cores, and its first seat. All slots are empty, and no round is open.
    pub fn new(alloc: Global, cores: u32) -> Result<(Board<T>, Seat<T>), Memory>
        requires some { 1 ≤ cores }
        requires few { cores ≤ 64 }
        ensures board { IfOk result (λ made. made.1.table_id ≡ board_id made.0) }
        ensures cores { IfOk result (λ made. cores_of made.0 ≡ cores) }
        ensures seat { IfOk result (λ made. made.1.me ≡ (opening_view cores, [])) }
    {
        // The draw word, and a turn word for each core.
        let words = [0u64; 65];
        let count = cores as usize;
        let (table, seat) = Table::vacant(alloc, &words[..count + 1], count, &cores)?;
        Ok((Board { table }, seat))
    }

    /// How many cores it has.
    pub fn cores(&self) -> usize
        ensures { result ≡ cores_of self.now }
    {
        self.table.slot_count()
    }

    /// Opens a round, and answers its base.
    pub fn begin(&self, seat: &mut Seat<T>) -> u64
        requires board { seat.old.table_id ≡ board_id self.now }
        requires first { IsFirst seat.old.me.0.role }
        requires closed { seat.old.me.0.round.running ≡ false }
        requires full { (core : ℕ) → core < cores_of self.now → IsFull (state_at seat.old.me.0 core).slot }
        requires rounds { seat.old.me.0.round.rounds < 2 ^ 40 }
        ensures board { seat.new.table_id ≡ seat.old.table_id }
        ensures seat { seat.new.me ≡ (round_opened seat.old.me.0 result, seat.old.me.1) }
        ensures base { result < 2 ^ 48 }
    {
        self.table.shared.load::<Begin>(seat, 0)
    }

    /// Draws a number, and claims the core that it stands for. None where it is past the last core.
    pub fn draw(&self, seat: &mut Seat<T>, base: u64) -> Option<Claim>
        requires board { seat.old.table_id ≡ board_id self.now }
        requires open { seat.old.me.0.round.running ≡ true }
        requires base { base ≡ seat.old.me.0.round.base }
        requires free { HoldsNone seat.old.me }
        requires no_none_yet { seat.old.me.0.saw_none ≡ false }
        ensures board { seat.new.table_id ≡ seat.old.table_id }
        ensures number { (found : ℕ) × (base ≤ found) × MatchOption result (base + cores_of self.now ≤ found)
            (λ claim. (claim.number ≡ found) × (claim.base ≡ base) × (found ≡ base + claim.core)) }
        ensures some { IfSome result (λ claim. (claim.core < cores_of self.now)
            × DrewCore T.core_of T.turns_of T.stem_of T.is_settled (cores_of self.now) claim.core seat.old.me seat.new.me) }
        ensures none { IfNone result (seat.new.me ≡ (after_empty_draw seat.old.me.0, [])) }
    {
        let number = self.table.shared.fetch_add::<Draw<T>>(seat, 0, 1);
        if number < base + self.table.slot_count() as u64 {
            let core = (number - base) as u32;
            Some(Claim { core, base, number })
        } else {
            None
        }
    }

    /// Splits off a seat, for another thread. It takes no memory: the answer is always Ok.
    pub fn split(&self, seat: &mut Seat<T>) -> Result<Seat<T>, Memory>
        requires board { seat.old.table_id ≡ board_id self.now }
        requires first { IsFirst seat.old.me.0.role }
        requires open { seat.old.me.0.round.running ≡ true }
        requires seats_left { 0 < seat.old.me.0.seats_left }
        ensures ok { IsOk result }
        ensures board { seat.new.table_id ≡ seat.old.table_id }
        ensures seat { seat.new.me ≡ (after_split seat.old.me.0, seat.old.me.1) }
        ensures other { IfOk result (λ other. (other.table_id ≡ seat.old.table_id) × (other.me ≡ (split_seat seat.old.me.0, []))) }
    {
        Ok(self.table.shared.split_seat::<SplitAndJoin>(seat))
    }

    /// Joins a seat that was split off.
    pub fn join(&self, seat: &mut Seat<T>, other: Seat<T>)
        requires board { seat.old.table_id ≡ board_id self.now }
        requires other_board { other.table_id ≡ board_id self.now }
        requires first { IsFirst seat.old.me.0.role }
        requires other { IsOther other.me.0.role }
        requires free { HoldsNone other.me }
        ensures board { seat.new.table_id ≡ seat.old.table_id }
        ensures seat { seat.new.me ≡ (after_join seat.old.me.0 other.me.0, seat.old.me.1) }
    {
        self.table.shared.join_seat::<SplitAndJoin>(seat, other);
    }

    /// Takes the piece that is claimed. It is taken once.
    pub fn take(&self, seat: &mut Seat<T>, claim: &Claim) -> T
        requires board { seat.old.table_id ≡ board_id self.now }
        requires piece { (piece : T) × (seat.old.me.1 ≡ (claim.now.core, Some piece) ∷ []) }
        ensures board { seat.new.table_id ≡ seat.old.table_id }
        ensures piece { seat.old.me.1 ≡ (claim.now.core, Some result) ∷ [] }
        ensures seat { seat.new.me ≡ (seat.old.me.0, (claim.now.core, None) ∷ []) }
    {
        self.table
            .shared
            .exchange(seat, claim.core as usize, None)
            .unwrap()
    }

    /// Puts the claimed piece back, after one turn. The claim ends.
    pub fn put(&self, seat: &mut Seat<T>, claim: Claim, piece: T)
        requires board { seat.old.table_id ≡ board_id self.now }
        requires claim { seat.old.me.0.claim ≡ claim.core ∷ [] }
        requires core { claim.core < cores_of self.now }
        requires taken { seat.old.me.1 ≡ (claim.core, None) ∷ [] }
        requires piece { IsPiece T.core_of T.turns_of T.stem_of T.is_settled claim.core (state_at seat.old.me.0 claim.core) 1 piece }
        ensures board { seat.new.table_id ≡ seat.old.table_id }
        ensures seat { seat.new.me ≡ (after_put seat.old.me.0, []) }
    {
        let core = claim.core as usize;
        self.table.shared.exchange(seat, core, Some(piece));
        self.table
            .shared
            .fetch_add::<PutBackCore>(seat, core + 1, 1);
    }

    /// Puts a piece into the slot of its core, which is empty, while no round is open.
    pub fn lend(&self, seat: &mut Seat<T>, piece: T)
        requires board { seat.old.table_id ≡ board_id self.now }
        requires first { IsFirst seat.old.me.0.role }
        requires closed { seat.old.me.0.round.running ≡ false }
        requires free { HoldsNone seat.old.me }
        requires core { T.core_of piece < cores_of self.now }
        requires empty { IsEmpty (state_at seat.old.me.0 (T.core_of piece)).slot }
        ensures board { seat.new.table_id ≡ seat.old.table_id }
        ensures cores { length seat.old.me.0.round.cores ≡ cores_of self.now }
        ensures sound { T.is_sound piece }
        ensures seat { seat.new.me ≡ (
          with_core seat.old.me.0 (T.core_of piece)
              (filled (state_at seat.old.me.0 (T.core_of piece)) (T.turns_of piece) (T.stem_of piece)),
          [],
        ) }
    {
        let core = piece.core();
        self.change(seat, core, Some(piece));
    }

    /// Takes the piece out of the slot of its core, which is full, once all other seats are joined. The first `fetch` of an open round
    /// ends it: then each core that was put back has one turn more.
    pub fn fetch(&self, seat: &mut Seat<T>, core: u32) -> T
        requires board { seat.old.table_id ≡ board_id self.now }
        requires first { IsFirst seat.old.me.0.role }
        requires alone { seat.old.me.0.seats_out ≡ 0 }
        requires free { HoldsNone seat.old.me }
        requires core { core < cores_of self.now }
        requires full { IsFull (state_at seat.old.me.0 core).slot }
        ensures board { seat.new.table_id ≡ seat.old.table_id }
        ensures cores { length seat.old.me.0.round.cores ≡ cores_of self.now }
        ensures piece { IsPiece T.core_of T.turns_of T.stem_of T.is_settled core (state_at (round_closed seat.old.me.0) core) 0 result }
        ensures each_once { seat.old.me.0.round.running ≡ true → seat.old.me.0.saw_none ≡ true
            → (other : ℕ) → times other seat.old.me.0.done ≡ below other (cores_of self.now) }
        ensures closed { seat.new.me.0.round.running ≡ false }
        ensures seat { seat.new.me ≡ (with_core (round_closed seat.old.me.0) core (emptied (state_at (round_closed seat.old.me.0) core)), []) }
    {
        self.change(seat, core, None).unwrap()
    }

    /// Changes what is in the slot of a core, and answers what was there, by the first seat while no other is out. An open round ends
    /// before that.
    fn change(&self, seat: &mut Seat<T>, core: u32, new: Option<T>) -> Option<T>
        requires board { seat.old.table_id ≡ board_id self.now }
        requires first { IsFirst seat.old.me.0.role }
        requires alone { (seat.old.me.0.round.running ≡ false) ⊎ (seat.old.me.0.seats_out ≡ 0) }
        requires free { HoldsNone seat.old.me }
        requires core { core < cores_of self.now }
        requires at_home { IsFull (state_at seat.old.me.0 core).slot ⊎ IsEmpty (state_at seat.old.me.0 core).slot }
        requires new { (piece : T) → new ≡ Some piece → T.core_of piece ≡ core }
        ensures board { seat.new.table_id ≡ seat.old.table_id }
        ensures cores { length seat.old.me.0.round.cores ≡ cores_of self.now }
        ensures found { FitsAs T.core_of T.turns_of T.stem_of T.is_settled (state_at (round_closed seat.old.me.0) core).slot core
            (state_at (round_closed seat.old.me.0) core) result }
        ensures each_once { seat.old.me.0.round.running ≡ true → seat.old.me.0.saw_none ≡ true
            → (other : ℕ) → times other seat.old.me.0.done ≡ below other (cores_of self.now) }
        ensures closed { seat.new.me.0.round.running ≡ false }
        ensures seat { seat.new.me ≡ (
          with_core (round_closed seat.old.me.0) core
              (with_slot T.core_of T.turns_of T.stem_of T.is_settled (state_at (round_closed seat.old.me.0) core) ((core, new) ∷ [])),
          [],
        ) }
    {
        let slot = core as usize;
        self.table.shared.load::<TakeSlot<T>>(seat, slot + 1);
        let found = self.table.shared.exchange(seat, slot, new);
        self.table.shared.load::<ReturnSlot<T>>(seat, slot + 1);
        found
    }
}
