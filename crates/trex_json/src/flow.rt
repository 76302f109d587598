// The flow of a stream.

ghost use Rattle.std.specs.Prelude.{◌≡◌, ◌-◌, ◌^◌, None, Some, IfSome, if◌then◌else◌};
ghost use Rattle.std.specs.Option.{ForSome};
ghost use Rattle.serde_json.specs.View.{view};
ghost use Rattle.trex_stamp.specs.Stamp.{flow_size};
ghost use Rattle.trex_profile.specs.Flow.{IsFlow};
ghost use Rattle.trex_json.specs.Shape.{flow, flow_names_wrong, flow_of, flow_wrong};

use crate::kinds::an_object;
use crate::names::{bool_field, latency_field, under, version_field, whole_field};
use serde_json::Value;
use trex_profile::Flow;
use trex_stamp::Version;

/// The greatest flow number that a latency header of that version has room for.
fn greatest_flow(version: Version) -> u64
    ensures { result ≡ 256 ^ flow_size version - 1 }
{
    match version {
        Version::One => 65_535,
        Version::Two => 4_294_967_295,
    }
}

/// The version and the number of a flow, where its names are of their kinds.
#[tactic(auto, unfolding(crate::specs::Shape::flow_names_wrong))]
fn flow(flow_stats: &Value) -> Option<Flow>
    ensures value { result ≡ (if flow_names_wrong (view flow_stats.now) then None else Some (flow (view flow_stats.now))) }
    ensures range { IfSome result IsFlow }
{
    let _latency = latency_field(flow_stats, "rule_type")?;
    let version = version_field(flow_stats, "version")?;
    let number = whole_field(flow_stats, "stream_id", greatest_flow(version), None)?;
    Some(Flow {
        version,
        number: number as u32,
    })
}

/// The flow of a stream, where it is of its kind: none where the stream has no flow.
#[tactic(auto, unfolding(crate::specs::Shape::flow_wrong))]
pub(crate) fn flow_of(stream: &Value) -> Option<Option<Flow>>
    ensures value { result ≡ (if flow_wrong (view stream.now) then None else Some (flow_of (view stream.now))) }
    ensures range { IfSome result (λ flow. ForSome flow IsFlow) }
{
    let Some(flow_stats) = under(stream, "flow_stats") else {
        return Some(None);
    };
    let flow_stats = an_object(flow_stats)?;
    if !bool_field(flow_stats, "enabled", false)? {
        return Some(None);
    }
    Some(Some(flow(flow_stats)?))
}
