// The input, as a profile.

ghost use Rattle.std.specs.Prelude.{IfOk, IfErr, Ok, OnOk};
ghost use Rattle.std.specs.Io.KnownBytes.{IsAtEnd};
ghost use Rattle.trex_top.specs.Rows.{HasVerdict};
ghost use Rattle.trex_top.specs.Stops.{ReadingStops};

use std::alloc::Global;
use trex_io::{ReadAll, Source, read_all};
use trex_json::{LONGEST_TEXT, ProfileFault, read_profile};
use trex_profile::{Profile, Refusal, Rule};

/// Why the input gave no profile.
pub(crate) enum ReadingStop {
    Refused(Refusal),
    ReadFault,
    Memory,
}

/// Reads the input to its end, as a profile.
pub(crate) fn read_input<S: Source>(alloc: Global, input: &mut S) -> Result<Profile, ReadingStop>
    ensures profile { IfOk result (λ s. HasVerdict (S.left input.old) (Ok s)) }
    ensures end { OnOk result (IsAtEnd (S.left input.new)) }
    ensures stops { IfErr result (ReadingStops S.left S.faults input.old input.new) }
{
    let text = match read_all(alloc, input, LONGEST_TEXT) {
        Ok(text) => text,
        Err(ReadAll::Fault) => return Err(ReadingStop::ReadFault),
        Err(ReadAll::TooLong { limit: _ }) => {
            return Err(ReadingStop::Refused(Refusal::of_document(Rule::TooLong)));
        }
        Err(ReadAll::Memory) => return Err(ReadingStop::Memory),
    };
    match read_profile(alloc, &text) {
        Ok(profile) => Ok(profile),
        Err(ProfileFault::Refused(refusal)) => Err(ReadingStop::Refused(refusal)),
        Err(ProfileFault::Memory) => Err(ReadingStop::Memory),
    }
}
