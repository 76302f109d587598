//! The field engine: programs that write variables, checksums and latency headers into packets.
#![tactic(auto)]

mod effect;
mod fix;
mod instr;
mod laws;
mod program;
mod rules;
mod run;
mod write;

pub use instr::{Instr, L4Kind, Operand, Part};
pub use laws::programs_fit;
pub use program::Program;
pub use rules::{
    is_trim, least_length, misses_header, no_room_for_stamp, overwrites_header_kind, room_of,
    trim_wrong, writes_past,
};
pub use run::{finish_packet, run_plain};
