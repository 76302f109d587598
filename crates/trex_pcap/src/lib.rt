//! The classic pcap capture format, version 2.4: the writer's nanosecond records, and a reader of both kinds in both byte orders.
#![tactic(auto)]

mod ahead;
mod fault;
mod filling;
mod format;
mod headers;
mod laws;
mod reader;
mod record;
mod unfit;
mod writing;

pub use ahead::{Ahead, look_ahead};
pub use fault::CaptureFault;
pub use format::Format;
pub use laws::{one_reading, reads_back};
pub use reader::CaptureReader;
pub use record::Record;
pub use unfit::Unfit;
pub use writing::{header, record_header};
