//! The answer to a case: its name and the verdict on its profile, as the report prints it.
ghost use Rattle.std.specs.Prelude.{◌≡◌, IfOk, OnOk};
ghost use Rattle.trex_io.specs.Texts.{Wrote};
ghost use Rattle.trex_json.specs.Verdict.{verdict};
ghost use Rattle.trex_report.specs.Texts.{line_text};
ghost use Rattle.trex_verdicts.specs.Answer.{verdict_line};

use crate::stop::Stop;
use std::alloc::Global;
use trex_io::{Memory, Sink, write_all, write_pieces};
use trex_json::{ProfileFault, read_profile};
use trex_report::{Line, write_line};

/// The line that says whether a text is a profile that keeps all rules, or which rule it breaks first.
fn line_of(alloc: Global, text: &[u8]) -> Result<Line, Memory>
    ensures { IfOk result (λ line. line_text line ≡ verdict_line (verdict text.now)) }
{
    match read_profile(alloc, text) {
        Ok(profile) => Ok(Line::Accepted {
            streams: profile.len() as u64,
        }),
        Err(ProfileFault::Refused(refusal)) => Ok(Line::Refused(refusal)),
        Err(ProfileFault::Memory) => Err(Memory),
    }
}

/// Writes the verdict on a text as a line.
pub(crate) fn write_verdict<O: Sink>(alloc: Global, out: &mut O, text: &[u8]) -> Result<(), Stop>
    ensures { OnOk result (Wrote O.held out.old out.new (verdict_line (verdict text.now))) }
{
    let line = line_of(alloc, text)?;
    write_line(out, line)?;
    Ok(())
}

/// Answers a line. A case is its name, a tab and the text of a profile; a line without a tab is a heading, and is written as it
/// stands.
pub(crate) fn answer<O: Sink>(alloc: Global, out: &mut O, line: &[u8]) -> Result<(), Stop> {
    match line.iter().position(|byte| *byte == b'\t') {
        Some(tab) => {
            write_all(out, &line[..tab + 1])?;
            write_verdict(alloc, out, &line[tab + 1..])
        }
        None => {
            write_pieces(out, &[line, b"\n"])?;
            Ok(())
        }
    }
}
