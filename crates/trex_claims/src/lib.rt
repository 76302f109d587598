//! Pieces of work that take turns, and the board on which threads claim them.
#![tactic(auto)]

mod board;
mod claim;
mod counting;
mod laws;
mod piece;
mod rule;
mod view;

pub use board::{Board, Seat};
pub use claim::Claim;
pub use counting::CountingPiece;
pub use laws::rules_keep_pieces;
pub use piece::Piece;
pub use view::{CoreState, Role, Round, SlotState, View};
