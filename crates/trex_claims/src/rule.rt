// The rule of a board's table, and what each step makes of what its seat knows.

ghost use Rattle.trex_claims.specs.Views.{spent};
ghost use Rattle.trex_claims.specs.Board.{Rule};
ghost use Rattle.trex_claims.specs.Moves.{opening_view, after_split, split_seat, after_join, Began, Drew, PutBack, TookSlot, ReturnedSlot};
ghost use Rattle.std.specs.Prelude.{◌-◌};

use crate::piece::Piece;
use crate::view::View;
use atomic_table::{Join, Play, Split, TableRule};
use std::marker::PhantomData;

/// The rule. The table is made for a number of cores.
pub struct BoardRule<T> {
    marker: PhantomData<T>,
}

impl<T: Piece> TableRule<Option<T>, View, u32> for BoardRule<T> {
    ghost holds = { λ _. Rule T.core_of T.turns_of T.stem_of T.is_settled };

    ghost first = { opening_view };
}

/// A seat is split off, and joined again.
pub struct SplitAndJoin;

impl Split<View> for SplitAndJoin {
    ghost left = { after_split };

    ghost right = { split_seat };
}

impl Join<View> for SplitAndJoin {
    ghost both = { after_join };

    ghost spent = { spent };
}

/// A round begins.
pub struct Begin;

impl<T> Play<Option<T>, View> for Begin {
    ghost then = { λ _ before found after. Began before found after };
}

/// A number is drawn.
pub struct Draw<T> {
    marker: PhantomData<T>,
}

impl<T: Piece> Play<Option<T>, View> for Draw<T> {
    ghost then = { λ step before found after. Drew T.core_of T.turns_of T.stem_of T.is_settled step.slots before found after };
}

/// The core of this turn word is put back.
pub struct PutBackCore;

impl<T> Play<Option<T>, View> for PutBackCore {
    ghost then = { λ _ before _ after. PutBack before after };
}

/// The slot of the core of this turn word is taken by the first seat.
pub struct TakeSlot<T> {
    marker: PhantomData<T>,
}

impl<T: Piece> Play<Option<T>, View> for TakeSlot<T> {
    ghost then = { λ step before _ after. TookSlot T.core_of T.turns_of T.stem_of T.is_settled step.slots (step.word - 1) before after };
}

/// The slot of the core of this turn word is given back by the first seat.
pub struct ReturnSlot<T> {
    marker: PhantomData<T>,
}

impl<T: Piece> Play<Option<T>, View> for ReturnSlot<T> {
    ghost then = { λ step before _ after. ReturnedSlot T.core_of T.turns_of T.stem_of T.is_settled (step.word - 1) before after };
}
