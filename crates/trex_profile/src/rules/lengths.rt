// The rules on the lengths of a stream's packets.

ghost use Rattle.std.specs.Prelude.{◌≡◌, ◌≤◌, All, length, map};
ghost use Rattle.trex_vars.specs.Variable.{variable_of};
ghost use Rattle.trex_vm.specs.Program.{AreSound, TakesFrom};
ghost use Rattle.trex_vm.specs.Rules.{is_trim, trim_wrong};
ghost use Rattle.trex_profile.specs.InstrRules.{twice_rule, trim_rule, does, length_rules};
ghost use Rattle.trex_profile.specs.Order.{first_each};
ghost use Rattle.trex_profile.specs.Steps.{instrs_of, program_of};

use crate::instructions::steps::Step;
use crate::refusal::Breach;
use crate::rule::Rule;
use trex_stamp::Version;
use trex_vars::VarSpec;
use trex_vm::{Instr, is_trim, least_length, no_room_for_stamp, trim_wrong};

/// Whether a step is a trim.
fn cuts(step: &Step) -> bool
    ensures { result ≡ does is_trim step.now }
{
    match *step {
        Step::Does(instr) => is_trim(&instr),
        _ => false,
    }
}

/// The breach by a second trim.
fn second_trim(steps: &[Step]) -> Option<Breach>
    requires { length steps.now ≤ 256 }
    ensures { result ≡ first_each (twice_rule steps.now) 0 steps.now }
{
    let mut is_cut = false;
    for (at, step) in steps.iter().enumerate() {
        if cuts(step) {
            if is_cut {
                return Some(Breach::at_place(at as u32, Rule::TwoTrims));
            }
            is_cut = true;
        }
    }
    None
}

/// Whether a step is a trim out of range.
fn cuts_wrong(vars: &[VarSpec], template: usize, step: &Step) -> bool
    requires operands { All (TakesFrom (length vars.now)) (instrs_of step.now) }
    requires sound { AreSound (map variable_of vars.now) }
    ensures { result ≡ does (trim_wrong (map variable_of vars.now) template) step.now }
{
    match *step {
        Step::Does(instr) => trim_wrong(vars, template, &instr),
        _ => false,
    }
}

/// The breach by a trim out of range.
fn wrong_trim(vars: &[VarSpec], template: usize, steps: &[Step]) -> Option<Breach>
    requires few { length steps.now ≤ 256 }
    requires operands { All (λ step. All (TakesFrom (length vars.now)) (instrs_of step)) steps.now }
    requires sound { AreSound (map variable_of vars.now) }
    ensures { result ≡ first_each (trim_rule (map variable_of vars.now) template) 0 steps.now }
{
    for (at, step) in steps.iter().enumerate() {
        if cuts_wrong(vars, template, step) {
            return Some(Breach::at_place(at as u32, Rule::TrimRange));
        }
    }
    None
}

/// The breach of a rule on the packets' lengths.
#[tactic(auto, unfolding(crate::specs::InstrRules::length_rules))]
pub(crate) fn length_breach(
    vars: &[VarSpec],
    template: usize,
    stamp: Option<Version>,
    steps: &[Step],
    program: &[Instr],
) -> Option<Breach>
    requires few { length steps.now ≤ 256 }
    requires operands { All (λ step. All (TakesFrom (length vars.now)) (instrs_of step)) steps.now }
    requires all_operands { All (TakesFrom (length vars.now)) program.now }
    requires sound { AreSound (map variable_of vars.now) }
    requires program { program.now ≡ program_of steps.now }
    ensures { result ≡ length_rules (map variable_of vars.now) template stamp steps.now }
{
    if let Some(breach) = second_trim(steps) {
        return Some(breach);
    }
    if let Some(breach) = wrong_trim(vars, template, steps) {
        return Some(breach);
    }
    if no_room_for_stamp(least_length(vars, program, template), stamp) {
        return Some(Breach::of_stream(Rule::NoRoomForStamp));
    }
    None
}
