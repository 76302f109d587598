// The entries of a profile.

ghost use Rattle.std.specs.Prelude.{◌≤◌, All, IfOk, length, map};
ghost use Rattle.serde_json.specs.View.{view};
ghost use Rattle.trex_profile.specs.Order.{first_each, unless};
ghost use Rattle.trex_profile.specs.Stream.{raw_stream, IsRawStream};
ghost use Rattle.trex_profile.specs.Answer.{Gives};
ghost use Rattle.trex_json.specs.Shape.{entry_rules, entry_stream, shape_refusal};

use crate::kinds::an_object;
use crate::names::{object_field, whole_field};
use crate::stream::stream_of;
use serde_json::Value;
use std::alloc::Global;
use trex_profile::{Fault, RawStream, Refusal, Rule, StreamFault};

/// The stream of an entry, its defaults filled in.
#[tactic(auto, unfolding(crate::specs::Shape::entry_rules))]
fn entry_of(alloc: Global, entry: &Value) -> Result<RawStream, StreamFault>
    ensures value { Gives raw_stream result (unless (entry_rules (view entry.now)) (entry_stream (view entry.now))) }
    ensures ranges { IfOk result IsRawStream }
{
    let entry = an_object(entry).ok_or(StreamFault::of_stream(Rule::BadEntry))?;
    let id = whole_field(entry, "stream_id", 2_147_483_647, None).ok_or(StreamFault::of_stream(
        Rule::BadStreamId,
    ))?;
    let stream = object_field(entry, "stream").ok_or(StreamFault::of_stream(Rule::BadStream))?;
    stream_of(alloc, id as u32, stream)
}

/// The streams of the entries, in order.
pub(crate) fn each_entry(alloc: Global, entries: &[Value]) -> Result<Vec<RawStream>, Fault<Refusal>>
    requires { length entries.now ≤ 4096 }
    ensures value { Gives (λ streams. map raw_stream streams.items) result
        (unless (first_each shape_refusal 0 (map view entries.now)) (map entry_stream (map view entries.now))) }
    ensures few { IfOk result (λ streams. length streams.items ≤ 4096) }
    ensures ranges { IfOk result (λ streams. All IsRawStream streams.items) }
{
    let mut streams = Vec::new(alloc);
    for (at, entry) in entries.iter().enumerate() {
        match entry_of(alloc, entry) {
            Ok(stream) => streams.push(stream)?,
            Err(fault) => return Err(fault.in_stream(at as u32)),
        }
    }
    Ok(streams)
}
