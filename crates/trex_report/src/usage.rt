// The line on command words without a meaning.

ghost use Rattle.trex_io.specs.Texts.{Writes};
ghost use Rattle.trex_report.specs.Texts.{placed_line, missing_line, usage_line};

use crate::names::option_name;
use itoa::Buffer;
use trex_io::{Failed, Sink, write_all, write_pieces};
use trex_words::Usage;

/// Writes a fault of the words at a place.
#[tactic(auto, unfolding(crate::specs::Texts::placed_line))]
fn write_placed<N: Sink>(to: &mut N, name: &str, at: usize) -> Result<(), Failed>
    ensures { Writes N.held N.faults to.old to.new result (placed_line name.now at) }
{
    let mut place = Buffer::new();
    write_pieces(
        to,
        &[
            b"usage: ",
            name.as_bytes(),
            b" at ",
            place.format(at).as_bytes(),
            b"\n",
        ],
    )
}

/// Writes which option is missing.
#[tactic(auto, unfolding(crate::specs::Texts::missing_line))]
fn write_missing<N: Sink>(to: &mut N, option: &str) -> Result<(), Failed>
    ensures { Writes N.held N.faults to.old to.new result (missing_line option.now) }
{
    write_pieces(to, &[b"usage: Missing option --", option.as_bytes(), b"\n"])
}

/// Writes what is wrong with the words.
pub fn write_usage<N: Sink>(to: &mut N, usage: &Usage) -> Result<(), Failed>
    ensures { Writes N.held N.faults to.old to.new result (usage_line usage.now) }
{
    match *usage {
        Usage::NoCommand => write_all(to, b"usage: NoCommand\n"),
        Usage::UnknownCommand => write_all(to, b"usage: UnknownCommand\n"),
        Usage::UnknownOption { at } => write_placed(to, "UnknownOption", at),
        Usage::Repeated { at } => write_placed(to, "Repeated", at),
        Usage::NoValue { at } => write_placed(to, "NoValue", at),
        Usage::BadNumber { at } => write_placed(to, "BadNumber", at),
        Usage::OutOfRange { at } => write_placed(to, "OutOfRange", at),
        Usage::Missing { option } => write_missing(to, option_name(option)),
    }
}
