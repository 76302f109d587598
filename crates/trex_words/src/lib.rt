//! What the command words ask for.
#![tactic(auto)]

mod asked;
mod command;
mod help;
mod options;
mod read;

pub use asked::{Asked, OptionName, RunAsk, SampleAsk, Usage, WireAsk};
pub use help::help_text;
pub use read::read_words;
