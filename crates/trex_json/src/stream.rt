// A stream from its object.

ghost use Rattle.std.specs.Prelude.{◌≡◌, ◌≤◌, ◌^◌, List, length, map, All, Option, None, Some, IfOk, option_map, if◌then◌else◌};
ghost use Rattle.std.specs.Option.{ForSome};
ghost use Rattle.serde_json.specs.View.{view};
ghost use Rattle.trex_profile.specs.Instruction.{Instruction, instruction, IsRawInstr};
ghost use Rattle.trex_profile.specs.Order.{unless};
ghost use Rattle.trex_profile.specs.Flow.{IsFlow};
ghost use Rattle.trex_profile.specs.Stream.{raw_stream, IsRawStream};
ghost use Rattle.trex_profile.specs.Answer.{Gives};
ghost use Rattle.trex_json.specs.Names.{value};
ghost use Rattle.trex_json.specs.Rows as row;
ghost use Rattle.trex_json.specs.Shape.{field_rules, fields, packet_wrong, items, flow_wrong, flow_of, vm_wrong, instrs_of, effect_rules, stream_rules, stream_of};

use crate::flow::flow_of;
use crate::instr::each_instr;
use crate::kinds::{an_array, an_object};
use crate::layers::template_of;
use crate::mode::mode_of;
use crate::names::{bool_field, gap_field, next_field, object_field, under, whole_field};
use serde_json::Value;
use std::alloc::Global;
use trex_profile::{Flow, RawInstr, RawStream, Rule, StreamFault};

/// The greatest gap, in nanoseconds.
const LONGEST_GAP: u64 = 1_000_000_000_000_000_000;

/// The greatest number of instructions of a stream.
const MOST_INSTRUCTIONS: usize = 256;

/// The plain names of a stream.
#[derive(Clone, Copy, Debug, PartialEq, Eq)]
pub(crate) struct Fields {
    pub(crate) enabled: bool,
    pub(crate) self_start: bool,
    pub(crate) isg: u64,
    pub(crate) next: Option<u32>,
    pub(crate) action_count: u32,
    pub(crate) seed: u64,
}

/// The plain names of a stream, each default filled in.
#[tactic(auto, unfolding(crate::specs::Shape::field_rules))]
fn fields_of(stream: &Value) -> Result<Fields, StreamFault>
    ensures value { Gives (λ f. f) result (unless (field_rules (view stream.now)) (fields (view stream.now))) }
    ensures gap { IfOk result (λ f. f.isg ≤ 10 ^ 18) }
    ensures next { IfOk result (λ f. ForSome f.next (λ id. id ≤ 2147483647)) }
{
    let enabled = bool_field(stream, "enabled", true).ok_or(StreamFault::of_stream(
        Rule::BadEnabled,
    ))?;
    let self_start = bool_field(stream, "self_start", true).ok_or(StreamFault::of_stream(
        Rule::BadSelfStart,
    ))?;
    let isg = gap_field(stream, "isg", LONGEST_GAP).ok_or(StreamFault::of_stream(Rule::BadIsg))?;
    let next = next_field(stream, "next_stream_id").ok_or(StreamFault::of_stream(Rule::BadNext))?;
    let action_count = whole_field(stream, "action_count", 4_294_967_295, Some(0)).ok_or(
        StreamFault::of_stream(Rule::BadActionCount),
    )?;
    let seed = whole_field(stream, "random_seed", u64::MAX, Some(0)).ok_or(StreamFault::of_stream(
        Rule::BadSeed,
    ))?;
    Ok(Fields {
        enabled,
        self_start,
        isg,
        next,
        action_count: action_count as u32,
        seed,
    })
}

/// The packet of a stream, where it has bytes or layers.
#[tactic(auto, unfolding(crate::specs::Shape::packet_wrong))]
fn packet_of(stream: &Value) -> Option<&Value>
    ensures value { option_map (λ packet. view packet.now) result
        ≡ (if packet_wrong (view stream.now) then None else Some (value row.packet (view stream.now))) }
{
    let packet = object_field(stream, "packet")?;
    if under(packet, "binary").is_some() || under(packet, "layers").is_some() {
        Some(packet)
    } else {
        None
    }
}

/// The instructions of a stream, where its program is of its kind: none where it has no program.
#[tactic(auto, unfolding(crate::specs::Shape::vm_wrong))]
fn items_of(stream: &Value) -> Option<&[Value]>
    ensures { option_map (λ items. map view items.now) result ≡ (if vm_wrong (view stream.now) then None else Some (items (view stream.now))) }
{
    let Some(vm) = under(stream, "vm") else {
        return Some(&[]);
    };
    let vm = an_object(vm)?;
    match under(vm, "instructions") {
        None => Some(&[]),
        Some(instructions) => an_array(instructions),
    }
}

/// What a stream does beside sending its template.
#[derive(Drop)]
struct Effects {
    flow: Option<Flow>,
    instrs: Vec<RawInstr>,
}

/// The flow and the instructions of a stream.
#[tactic(auto, unfolding(crate::specs::Shape::effect_rules))]
fn effects_of(alloc: Global, seed: u64, stream: &Value) -> Result<Effects, StreamFault>
    ensures value { Gives {Y = Option Flow × List Instruction} (λ effects. (effects.flow, map instruction effects.instrs.items)) result
        (unless (effect_rules seed (view stream.now)) (flow_of (view stream.now), instrs_of seed (view stream.now))) }
    ensures flow { IfOk result (λ effects. ForSome effects.flow IsFlow) }
    ensures few { IfOk result (λ effects. length effects.instrs.items ≤ 256) }
    ensures ranges { IfOk result (λ effects. All IsRawInstr (map instruction effects.instrs.items)) }
{
    let flow = flow_of(stream).ok_or(StreamFault::of_stream(Rule::BadFlowStats))?;
    let items = items_of(stream).ok_or(StreamFault::of_stream(Rule::BadVm))?;
    if items.len() > MOST_INSTRUCTIONS {
        return Err(StreamFault::of_stream(Rule::TooManyInstructions));
    }
    let instrs = each_instr(alloc, seed, items)?;
    Ok(Effects { flow, instrs })
}

/// The stream of that id, its defaults filled in.
#[tactic(auto, unfolding(crate::specs::Shape::stream_rules, crate::specs::Shape::stream_of))]
pub(crate) fn stream_of(alloc: Global, id: u32, stream: &Value) -> Result<RawStream, StreamFault>
    requires { id ≤ 2147483647 }
    ensures value { Gives raw_stream result (unless (stream_rules (view stream.now)) (stream_of id (view stream.now))) }
    ensures ranges { IfOk result IsRawStream }
{
    let fields = fields_of(stream)?;
    let packet = packet_of(stream).ok_or(StreamFault::of_stream(Rule::BadPacket))?;
    let template = template_of(alloc, packet)?;
    let (rate, mode) = mode_of(stream)?;
    let effects = effects_of(alloc, fields.seed, stream)?;
    Ok(RawStream {
        id,
        enabled: fields.enabled,
        self_start: fields.self_start,
        isg: fields.isg,
        next: fields.next,
        action_count: fields.action_count,
        seed: fields.seed,
        template,
        rate,
        mode,
        flow: effects.flow,
        instrs: effects.instrs,
    })
}
