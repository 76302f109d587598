// The rules on the places that a stream's instructions write.

ghost use Rattle.std.specs.Prelude.{◌≡◌, ◌≤◌, ◌==◌, not, length};
ghost use Rattle.trex_vm.specs.Fix.{header_length};
ghost use Rattle.trex_vm.specs.Rules.{writes_past, overwrites_header_kind};
ghost use Rattle.trex_profile.specs.InstrRules.{field_rule, room_rule, fix_rule, shape_rule, does, misses_field, fix_wrong, place_rules};
ghost use Rattle.trex_profile.specs.Order.{first_each};
ghost use Rattle.trex_profile.specs.Steps.{program_of};

use crate::instructions::steps::Step;
use crate::refusal::Breach;
use crate::rule::Rule;
use trex_vm::{Instr, misses_header, overwrites_header_kind, writes_past};

/// Whether a step is a write whose field isn't there or is too short.
fn misses_field(step: &Step) -> bool
    ensures { result ≡ misses_field step.now }
{
    matches!(*step, Step::MissesField)
}

/// The breach by a write whose field isn't there or is too short.
fn missed_field(steps: &[Step]) -> Option<Breach>
    requires { length steps.now ≤ 256 }
    ensures { result ≡ first_each field_rule 0 steps.now }
{
    for (at, step) in steps.iter().enumerate() {
        if misses_field(step) {
            return Some(Breach::at_place(at as u32, Rule::BadField));
        }
    }
    None
}

/// Whether a step is a write that ends after the room.
fn ends_past(room: usize, step: &Step) -> bool
    ensures { result ≡ does (writes_past room) step.now }
{
    match *step {
        Step::Does(instr) => writes_past(room, &instr),
        _ => false,
    }
}

/// The breach by a write that ends after the room.
fn write_past(room: usize, steps: &[Step]) -> Option<Breach>
    requires { length steps.now ≤ 256 }
    ensures { result ≡ first_each (room_rule room) 0 steps.now }
{
    for (at, step) in steps.iter().enumerate() {
        if ends_past(room, step) {
            return Some(Breach::at_place(at as u32, Rule::WriteRoom));
        }
    }
    None
}

/// Whether the header at a byte of the template isn't so long.
fn has_other_length(template: &[u8], at: usize, header: usize) -> bool
    ensures { result ≡ not (header == header_length template.now at) }
{
    let first = template.get(at).copied().unwrap_or(0);
    header != usize::from(first % 16) * 4
}

/// Whether a step is a fix that has no header to fix.
fn fixes_nothing(template: &[u8], room: usize, step: &Step) -> bool
    requires { room ≤ length template.now }
    ensures { result ≡ fix_wrong template.now room step.now }
{
    match *step {
        Step::Makes | Step::MissesField => false,
        Step::Does(instr) => misses_header(template, room, &instr),
        Step::FixesHeader { at, header } => {
            misses_header(template, room, &Instr::FixIpv4 { at })
                || has_other_length(template, at, header)
        }
        Step::FixesSegment { ip, header, kind } => {
            misses_header(template, room, &Instr::FixIpv4 { at: ip })
                || misses_header(template, room, &Instr::FixL4 { ip, header, kind })
                || has_other_length(template, ip, header)
        }
    }
}

/// The breach by a fix that has no header to fix.
fn wrong_fix(template: &[u8], room: usize, steps: &[Step]) -> Option<Breach>
    requires few { length steps.now ≤ 256 }
    requires within { room ≤ length template.now }
    ensures { result ≡ first_each (fix_rule template.now room) 0 steps.now }
{
    for (at, step) in steps.iter().enumerate() {
        if fixes_nothing(template, room, step) {
            return Some(Breach::at_place(at as u32, Rule::BadFix));
        }
    }
    None
}

/// Whether a step writes the version, the length or the protocol of a header that a fix of the program names.
fn writes_on_shape(program: &[Instr], step: &Step) -> bool
    ensures { result ≡ does (overwrites_header_kind program.now) step.now }
{
    match *step {
        Step::Makes | Step::MissesField => false,
        Step::Does(instr) => overwrites_header_kind(program, &instr),
        Step::FixesHeader { at, .. } => overwrites_header_kind(program, &Instr::FixIpv4 { at }),
        Step::FixesSegment { ip, header, kind } => {
            overwrites_header_kind(program, &Instr::FixIpv4 { at: ip })
                || overwrites_header_kind(program, &Instr::FixL4 { ip, header, kind })
        }
    }
}

/// The breach by a step that writes the version, the length or the protocol of a header that a fix of the program names.
fn write_on_shape(program: &[Instr], steps: &[Step]) -> Option<Breach>
    requires { length steps.now ≤ 256 }
    ensures { result ≡ first_each (shape_rule program.now) 0 steps.now }
{
    for (at, step) in steps.iter().enumerate() {
        if writes_on_shape(program, step) {
            return Some(Breach::at_place(at as u32, Rule::WriteOnShape));
        }
    }
    None
}

/// The breach of a rule on the places that are written.
#[tactic(auto, unfolding(crate::specs::InstrRules::place_rules))]
pub(crate) fn place_breach(
    template: &[u8],
    room: usize,
    steps: &[Step],
    program: &[Instr],
) -> Option<Breach>
    requires few { length steps.now ≤ 256 }
    requires within { room ≤ length template.now }
    requires program { program.now ≡ program_of steps.now }
    ensures { result ≡ place_rules template.now room steps.now }
{
    if let Some(breach) = missed_field(steps) {
        return Some(breach);
    }
    if let Some(breach) = write_past(room, steps) {
        return Some(breach);
    }
    if let Some(breach) = wrong_fix(template, room, steps) {
        return Some(breach);
    }
    write_on_shape(program, steps)
}
