// The line on a profile that breaks a rule.

ghost use Rattle.trex_io.specs.Texts.{Writes};
ghost use Rattle.trex_report.specs.Texts.{refusal_line};

use crate::names::rule_name;
use itoa::Buffer;
use trex_io::{Failed, Sink, write_pieces};
use trex_profile::Refusal;

/// Writes why a profile is refused.
#[tactic(auto, unfolding(crate::specs::Texts::refusal_line))]
pub fn write_refusal<N: Sink>(to: &mut N, refusal: &Refusal) -> Result<(), Failed>
    ensures { Writes N.held N.faults to.old to.new result (refusal_line refusal.now) }
{
    let name = rule_name(refusal.rule).as_bytes();
    let mut stream = Buffer::new();
    let mut at = Buffer::new();
    match (refusal.stream, refusal.at) {
        (None, None) => write_pieces(to, &[b"refused: ", name, b"\n"]),
        (Some(i), None) => {
            let i = stream.format(i).as_bytes();
            write_pieces(to, &[b"refused: ", name, b" stream ", i, b"\n"])
        }
        (None, Some(j)) => {
            let j = at.format(j).as_bytes();
            write_pieces(to, &[b"refused: ", name, b" at ", j, b"\n"])
        }
        (Some(i), Some(j)) => {
            let i = stream.format(i).as_bytes();
            let j = at.format(j).as_bytes();
            write_pieces(to, &[b"refused: ", name, b" stream ", i, b" at ", j, b"\n"])
        }
    }
}
