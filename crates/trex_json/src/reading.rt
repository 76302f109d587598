// A profile from its text: its JSON reading, the rules on shapes, then those on values.

ghost use Rattle.std.specs.Prelude.{◌≡◌, IfOk, map, option_map};
ghost use Rattle.serde_json.specs.View.{view};
ghost use Rattle.trex_profile.specs.Admission.{IsRawProfile};
ghost use Rattle.trex_profile.specs.Answer.{Gives};
ghost use Rattle.trex_profile.specs.Order.{unless};
ghost use Rattle.trex_profile.specs.Refusal.{of_document};
ghost use Rattle.trex_profile.specs.Stream.{raw_stream};
ghost use Rattle.trex_json.specs.Json.{value_of, json_of};
ghost use Rattle.trex_json.specs.Shape.{entry_stream};
ghost use Rattle.trex_json.specs.Verdict.{entries_refusal, shape_of, verdict};

use crate::entry::each_entry;
use crate::kinds::an_array;
use serde_json::Value;
use std::alloc::Global;
use trex_decimal::quote_numbers;
use trex_io::Memory;
use trex_profile::{Fault, Profile, RawProfile, Refusal, Rule, admit};

/// Why a text gives no profile: the first rule that it breaks, or no memory.
pub type ProfileFault = Fault<Refusal>;

/// The greatest number of bytes of a profile's text.
pub const LONGEST_TEXT: usize = 33_554_432;

/// The greatest number of streams.
const MOST_STREAMS: usize = 4_096;

/// The JSON value of a text, where it has one.
fn read_value(alloc: Global, text: &[u8]) -> Result<Option<Value>, Memory>
    ensures { IfOk result (λ value. option_map view value ≡ value_of text.now) }
{
    match Value::from_slice(alloc, text) {
        Ok(value) => Ok(Some(value)),
        Err(e) => { if e.is_memory() { Err(Memory) } else { Ok(None) } }
    }
}

/// The JSON value of a profile's text, whose numbers count as texts, where it has one.
pub(crate) fn read_json(alloc: Global, text: &[u8]) -> Result<Option<Value>, Memory>
    ensures { IfOk result (λ value. option_map view value ≡ json_of text.now) }
{
    let quoted = quote_numbers(alloc, text)?;
    read_value(alloc, &quoted)
}

/// A rule about the document is broken.
fn refused(rule: Rule) -> ProfileFault
    ensures { result ≡ Fault.Refused (of_document rule) }
{
    Fault::Refused(Refusal::of_document(rule))
}

/// The streams of a document's entries.
fn entries_of(alloc: Global, entries: &[Value]) -> Result<RawProfile, ProfileFault>
    ensures value { Gives (λ raw. map raw_stream raw.streams.items) result
        (unless (entries_refusal (map view entries.now)) (map entry_stream (map view entries.now))) }
    ensures ranges { IfOk result IsRawProfile }
{
    if entries.len() > MOST_STREAMS {
        return Err(refused(Rule::TooManyStreams));
    }
    let streams = each_entry(alloc, entries)?;
    Ok(RawProfile { streams })
}

/// What a text says, before its values are looked at.
#[tactic(auto, unfolding(crate::specs::Verdict::text_refusal))]
fn raw_profile(alloc: Global, text: &[u8]) -> Result<RawProfile, ProfileFault>
    ensures value { Gives (λ raw. map raw_stream raw.streams.items) result (shape_of text.now) }
    ensures ranges { IfOk result IsRawProfile }
{
    if text.len() > LONGEST_TEXT {
        return Err(refused(Rule::TooLong));
    }
    let document = read_json(alloc, text)?.ok_or(refused(Rule::NotJson))?;
    let entries = an_array(&document).ok_or(refused(Rule::NotArray))?;
    entries_of(alloc, entries)
}

/// Reads a profile's text. The first rule that it breaks is the refusal; out of memory is the one answer without a cause.
pub fn read_profile(alloc: Global, text: &[u8]) -> Result<Profile, ProfileFault>
    ensures { Gives (λ streams. streams) result (verdict text.now) }
{
    let raw = raw_profile(alloc, text)?;
    admit(alloc, raw)
}
