//! Sessions of stream commands: lines are heard, a table of streams is kept, replies and captures are written.
#![tactic(auto)]

mod bound;
mod entry;
mod judging;
mod line_reader;
mod reply;
mod session;
mod starting;
mod stop;
mod stream_text;
mod words;

pub use bound::{Bound, MOST_BYTES};
pub use judging::{Judged, is_end, judge, unheard};
pub use line_reader::{LONGEST_LINE, LineFault, LineReader};
pub use reply::{Reply, ReplyLine};
pub use session::Session;
pub use stop::{Stop, Unanswered, stop_of};
