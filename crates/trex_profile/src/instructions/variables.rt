// The variables of a stream.

ghost use Rattle.std.specs.Prelude.{◌≡◌, ◌≤◌, ◌++◌, length, map, option_map, IfOk, IfSome, None};
ghost use Rattle.std.specs.List.{filter_map};
ghost use Rattle.std.specs.Option.{option_to_list};
ghost use Rattle.trex_vars.specs.Check.{fault_of};
ghost use Rattle.trex_vars.specs.Variable.{variable_of};
ghost use Rattle.trex_vm.specs.Program.{AreSound};
ghost use Rattle.trex_profile.specs.Answer.{Gives};
ghost use Rattle.trex_profile.specs.InstrRules.{range_rule};
ghost use Rattle.trex_profile.specs.Instruction.{instruction};
ghost use Rattle.trex_profile.specs.Order.{first_each, unless};
ghost use Rattle.trex_profile.specs.Steps.{restart_of, variable_at, variables_from};

use crate::fault::StreamFault;
use crate::raw::RawInstr;
use crate::rule::Rule;
use std::alloc::Global;
use trex_io::Memory;
use trex_vars::{VarSpec, check};

/// The variable of the instruction at a place, where it makes one.
fn variable_at(
    alloc: Global,
    seed: u64,
    position: u32,
    instr: &RawInstr,
) -> Result<Option<VarSpec>, Memory>
    ensures { IfOk result (λ var. option_map variable_of var ≡ variable_at seed position (instruction instr.now)) }
{
    let var = match instr {
        RawInstr::FlowVar {
            size,
            op,
            init,
            min,
            max,
            step,
            ..
        } => VarSpec::Counter {
            op: *op,
            size: *size,
            init: *init,
            min: *min,
            max: *max,
            step: *step,
            seed,
            position,
        },
        RawInstr::ListVar {
            size,
            op,
            step,
            values,
            ..
        } => VarSpec::List {
            op: *op,
            size: *size,
            step: *step,
            values: Vec::from_slice(alloc, values)?,
            seed,
            position,
        },
        RawInstr::RandLimit {
            size,
            min,
            max,
            limit,
            seed,
            ..
        } => VarSpec::RandLimit {
            size: *size,
            min: *min,
            max: *max,
            limit: *limit,
            seed: *seed,
            position,
        },
        RawInstr::Tuple {
            ip_min,
            ip_max,
            port_min,
            port_max,
            limit,
            ..
        } => VarSpec::Tuple {
            ip_min: *ip_min,
            ip_max: *ip_max,
            port_min: *port_min,
            port_max: *port_max,
            limit: *limit,
        },
        _ => return Ok(None),
    };
    Ok(Some(var))
}

/// The variable of the instruction at a place, where it makes one that has no fault.
fn sound_variable(
    alloc: Global,
    seed: u64,
    place: u32,
    instr: &RawInstr,
) -> Result<Option<VarSpec>, StreamFault>
    ensures value { Gives (option_map variable_of) result
        (unless (range_rule seed place (instruction instr.now)) (variable_at seed place (instruction instr.now))) }
    ensures sound { IfOk result (λ var. IfSome var (λ spec. fault_of (variable_of spec) ≡ None)) }
{
    let Some(var) = variable_at(alloc, seed, place, instr)? else {
        return Ok(None);
    };
    if check(&var).is_err() {
        return Err(StreamFault::at_place(place, Rule::VarRange));
    }
    Ok(Some(var))
}

/// Puts an item, where there is one, after the others.
fn keep<T: Drop>(items: &mut Vec<T>, item: Option<T>) -> Result<(), Memory>
    ensures { IfOk result (λ _. items.new.items ≡ items.old.items ++ option_to_list item) }
{
    if let Some(item) = item {
        items.push(item)?;
    }
    Ok(())
}

/// The variables of instructions, or the rule on their ranges that is broken.
pub(crate) fn variables_of(
    alloc: Global,
    seed: u64,
    instrs: &[RawInstr],
) -> Result<Vec<VarSpec>, StreamFault>
    requires { length instrs.now ≤ 256 }
    ensures value { Gives (λ vars. map variable_of vars.items) result
        (unless (first_each (range_rule seed) 0 (map instruction instrs.now)) (variables_from seed 0 (map instruction instrs.now))) }
    ensures sound { IfOk result (λ vars. AreSound (map variable_of vars.items)) }
{
    let mut vars = Vec::new(alloc);
    for (at, instr) in instrs.iter().enumerate() {
        match sound_variable(alloc, seed, at as u32, instr) {
            Ok(var) => keep(&mut vars, var)?,
            Err(fault) => return Err(fault),
        }
    }
    Ok(vars)
}

/// Whether the variable of an instruction restarts at each visit, where it makes one.
fn restart_of(instr: &RawInstr) -> Option<bool>
    ensures { result ≡ restart_of (instruction instr.now) }
{
    match instr {
        RawInstr::FlowVar { restart, .. }
        | RawInstr::ListVar { restart, .. }
        | RawInstr::RandLimit { restart, .. }
        | RawInstr::Tuple { restart, .. } => Some(*restart),
        _ => None,
    }
}

/// Of each variable of instructions, in their order, whether it restarts at each visit.
pub(crate) fn restarts_of(alloc: Global, instrs: &[RawInstr]) -> Result<Vec<bool>, Memory>
    ensures { IfOk result (λ restarts. restarts.items ≡ filter_map restart_of (map instruction instrs.now)) }
{
    let mut restarts = Vec::new(alloc);
    for instr in instrs {
        keep(&mut restarts, restart_of(instr))?;
    }
    Ok(restarts)
}
