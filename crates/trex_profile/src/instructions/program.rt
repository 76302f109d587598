// The variables and the program of a stream.

ghost use Rattle.std.specs.Prelude.{◌≡◌, ◌≤◌, List, All, IfOk, length, map, true};
ghost use Rattle.std.specs.List.{filter_map};
ghost use Rattle.trex_vars.specs.Variable.{Variable, variable_of};
ghost use Rattle.trex_vm.specs.Program.{AreOperandsOf, AreSound, TakesFrom, program_view};
ghost use Rattle.trex_vm.specs.Rules.{accepts};
ghost use Rattle.trex_profile.specs.Answer.{Gives};
ghost use Rattle.trex_profile.specs.InstrRules.{names_rules, does_rules};
ghost use Rattle.trex_profile.specs.Instruction.{instruction, IsRawInstr};
ghost use Rattle.trex_profile.specs.Order.{unless};
ghost use Rattle.trex_profile.specs.Steps.{restart_of, variables_from, steps_of, instrs_of, program_of};

use crate::fault::StreamFault;
use crate::instructions::names::names_of;
use crate::instructions::steps::{Step, program_of, steps_of};
use crate::instructions::variables::{restarts_of, variables_of};
use crate::raw::RawInstr;
use crate::rules::lengths::length_breach;
use crate::rules::places::place_breach;
use std::alloc::Global;
use trex_layers::{LONGEST_PACKET, SHORTEST_PACKET};
use trex_stamp::Version;
use trex_vars::VarSpec;
use trex_vm::{Program, least_length, room_of};

/// The variables of a stream, and what its instructions come to.
#[derive(Drop)]
pub(crate) struct Parts {
    pub(crate) vars: Vec<VarSpec>,
    /// Of each variable, whether it restarts at each visit.
    pub(crate) restart: Vec<bool>,
    pub(crate) steps: Vec<Step>,
}

/// The variables of a stream and what its instructions come to in a template, or the first rule on their names that is broken.
#[tactic(auto, unfolding(crate::specs::InstrRules::names_rules))]
pub(crate) fn parts_of(
    alloc: Global,
    template: &[u8],
    seed: u64,
    instrs: &[RawInstr],
) -> Result<Parts, StreamFault>
    requires few { length instrs.now ≤ 256 }
    requires short { length template.now ≤ LONGEST_PACKET }
    requires ranges { All IsRawInstr (map instruction instrs.now) }
    ensures value { Gives {Y = List Variable × List Step} (λ parts. (map variable_of parts.vars.items, parts.steps.items)) result
        (unless (names_rules template.now seed (map instruction instrs.now))
        (variables_from seed 0 (map instruction instrs.now), steps_of template.now (map instruction instrs.now))) }
    ensures vars { IfOk result (λ parts. map variable_of parts.vars.items ≡ variables_from seed 0 (map instruction instrs.now)) }
    ensures restart { IfOk result (λ parts. parts.restart.items ≡ filter_map restart_of (map instruction instrs.now)) }
    ensures paired { IfOk result (λ parts. length parts.restart.items ≡ length parts.vars.items) }
    ensures steps { IfOk result (λ parts. parts.steps.items ≡ steps_of template.now (map instruction instrs.now)) }
    ensures sound { IfOk result (λ parts. AreSound (map variable_of parts.vars.items)) }
    ensures few { IfOk result (λ parts. length parts.steps.items ≤ 256) }
    ensures operands { IfOk result (λ parts. AreOperandsOf (map variable_of parts.vars.items) (program_of parts.steps.items)) }
    ensures each { IfOk result (λ parts. All (λ step. All (TakesFrom (length parts.vars.items)) (instrs_of step)) parts.steps.items) }
{
    let names = names_of(alloc, instrs)?;
    let vars = variables_of(alloc, seed, instrs)?;
    let steps = steps_of(alloc, template, &names, instrs)?;
    let restart = restarts_of(alloc, instrs)?;
    Ok(Parts {
        vars,
        restart,
        steps,
    })
}

/// The program of a stream's steps, or the first rule on what they do that is broken.
#[tactic(auto, unfolding(crate::specs::InstrRules::does_rules))]
pub(crate) fn program_for(
    alloc: Global,
    vars: &[VarSpec],
    steps: &[Step],
    template: &[u8],
    stamp: Option<Version>,
) -> Result<Program, StreamFault>
    requires few { length steps.now ≤ 256 }
    requires long { SHORTEST_PACKET ≤ length template.now }
    requires short { length template.now ≤ LONGEST_PACKET }
    requires sound { AreSound (map variable_of vars.now) }
    requires operands { AreOperandsOf (map variable_of vars.now) (program_of steps.now) }
    requires each { All (λ step. All (TakesFrom (length vars.now)) (instrs_of step)) steps.now }
    ensures value { Gives (λ program. program) result (unless (does_rules (map variable_of vars.now) template.now stamp steps.now)
        (program_view (program_of steps.now) (map variable_of vars.now) template.now stamp)) }
    ensures accepts { IfOk result (λ _. accepts (map variable_of vars.now) template.now stamp (program_of steps.now) ≡ true) }
{
    let instrs = program_of(alloc, steps)?;
    if let Some(breach) = length_breach(vars, template.len(), stamp, steps, &instrs) {
        return Err(StreamFault::Refused(breach));
    }
    let room = room_of(least_length(vars, &instrs, template.len()), stamp);
    if let Some(breach) = place_breach(template, room, steps, &instrs) {
        return Err(StreamFault::Refused(breach));
    }
    Ok(Program::of_accepted(instrs, vars, template, stamp))
}
