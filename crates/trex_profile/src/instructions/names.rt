// The names that a stream's instructions give.

ghost use Rattle.std.specs.Prelude.{◌≡◌, ◌≤◌, ◌<◌, ◌^◌, ◌++◌, length, map, option_map, IfOk};
ghost use Rattle.std.specs.List.{list_any};
ghost use Rattle.trex_profile.specs.Answer.{Gives};
ghost use Rattle.trex_profile.specs.Given.{given_of, variable_name, next_var, is_empty_name, given_by, givens, is_given, operand_of};
ghost use Rattle.trex_profile.specs.InstrRules.{name_rule};
ghost use Rattle.trex_profile.specs.Instruction.{instruction};
ghost use Rattle.trex_profile.specs.Order.{first_each, unless};

use crate::fault::StreamFault;
use crate::name::Name;
use crate::raw::RawInstr;
use crate::rule::Rule;
use std::alloc::Global;
use trex_io::Memory;
use trex_vm::{Operand, Part};

/// A name that an instruction gives, and what it stands for.
#[derive(Debug, Drop)]
pub(crate) struct GivenName {
    pub(crate) name: Vec<u8>,
    pub(crate) operand: Operand,
}

/// The name of the variable that an instruction makes.
fn variable_name(instr: &RawInstr) -> Option<&Name>
    ensures { option_map (λ name. name.now) result ≡ variable_name (instruction instr.now) }
{
    match instr {
        RawInstr::FlowVar { name, .. }
        | RawInstr::ListVar { name, .. }
        | RawInstr::RandLimit { name, .. }
        | RawInstr::Tuple { name, .. } => Some(name),
        _ => None,
    }
}

/// The place of the next variable among the stream's.
fn next_var(var: usize, instr: &RawInstr) -> usize
    requires { var < 2 ^ 32 }
    ensures { result ≡ next_var var (instruction instr.now) }
{
    if variable_name(instr).is_some() {
        var + 1
    } else {
        var
    }
}

/// Whether an instruction makes a variable of an empty name.
fn is_nameless(instr: &RawInstr) -> bool
    ensures { result ≡ is_empty_name (variable_name (instruction instr.now)) }
{
    match variable_name(instr) {
        Some(name) => name.text().is_empty(),
        None => false,
    }
}

/// A name with what follows it.
fn joined(alloc: Global, name: &Name, suffix: &str) -> Result<Vec<u8>, Memory>
    ensures { IfOk result (λ bytes. bytes.items ≡ name.now ++ suffix.now) }
{
    let mut bytes = Vec::from_slice(alloc, name.text().as_bytes())?;
    bytes.extend_from_slice(suffix.as_bytes())?;
    Ok(bytes)
}

/// The names that an instruction gives, as the variable at a place among the stream's variables.
fn given_by(alloc: Global, var: usize, instr: &RawInstr) -> Result<Vec<GivenName>, Memory>
    ensures { IfOk result (λ given. map given_of given.items ≡ given_by var (instruction instr.now)) }
{
    let mut given = Vec::new(alloc);
    match instr {
        RawInstr::FlowVar { name, size, .. }
        | RawInstr::ListVar { name, size, .. }
        | RawInstr::RandLimit { name, size, .. } => given.push(GivenName {
            name: Vec::from_slice(alloc, name.text().as_bytes())?,
            operand: Operand {
                var,
                part: Part::Whole,
                size: *size,
            },
        })?,
        RawInstr::Tuple { name, .. } => {
            given.push(GivenName {
                name: joined(alloc, name, ".ip")?,
                operand: Operand {
                    var,
                    part: Part::Ip,
                    size: 4,
                },
            })?;
            given.push(GivenName {
                name: joined(alloc, name, ".port")?,
                operand: Operand {
                    var,
                    part: Part::Port,
                    size: 2,
                },
            })?;
        }
        _ => {}
    }
    Ok(given)
}

/// Whether a name is among those that were given.
fn is_given(names: &[GivenName], name: &[u8]) -> bool
    ensures { result ≡ is_given (map given_of names.now) name.now }
{
    for given in names {
        if given.name.as_slice() == name {
            return true;
        }
    }
    false
}

/// Whether one of these was given before.
fn are_given(names: &[GivenName], given: &[GivenName]) -> bool
    ensures { result ≡ list_any (λ g. is_given (map given_of names.now) g.name) (map given_of given.now) }
{
    for one in given {
        if is_given(names, &one.name) {
            return true;
        }
    }
    false
}

/// The names that instructions give, or the rule on names that is broken.
pub(crate) fn names_of(alloc: Global, instrs: &[RawInstr]) -> Result<Vec<GivenName>, StreamFault>
    requires { length instrs.now ≤ 256 }
    ensures { Gives (λ names. map given_of names.items) result
        (unless (first_each (name_rule (map instruction instrs.now)) 0 (map instruction instrs.now)) (givens 0 (map instruction instrs.now))) }
{
    let mut names = Vec::new(alloc);
    let mut vars = 0;
    for (at, instr) in instrs.iter().enumerate() {
        let given = given_by(alloc, vars, instr)?;
        if is_nameless(instr) || are_given(&names, &given) {
            return Err(StreamFault::at_place(at as u32, Rule::VarName));
        }
        append(&mut names, given)?;
        vars = next_var(vars, instr);
    }
    Ok(names)
}

/// Puts further names after those that were given.
fn append(names: &mut Vec<GivenName>, given: Vec<GivenName>) -> Result<(), Memory>
    ensures { IfOk result (λ _. names.new.items ≡ names.old.items ++ given.items) }
{
    for name in given {
        names.push(name)?;
    }
    Ok(())
}

/// What a name stands for.
pub(crate) fn operand_of(names: &[GivenName], name: &Name) -> Option<Operand>
    ensures { result ≡ operand_of (map given_of names.now) name.now }
{
    let name = name.text().as_bytes();
    for given in names {
        if given.name.as_slice() == name {
            return Some(given.operand);
        }
    }
    None
}
