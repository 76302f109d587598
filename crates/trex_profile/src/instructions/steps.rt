// What a stream's instructions come to in a program.

ghost use Rattle.std.specs.Prelude.{◌≡◌, ◌≤◌, ◌++◌, length, map, IfOk};
ghost use Rattle.trex_vm.specs.declared.instr.Instr.TheVariants.{Write as WriteInstr};
ghost use Rattle.trex_profile.specs.Answer.{Gives};
ghost use Rattle.trex_profile.specs.Given.{given_of};
ghost use Rattle.trex_profile.specs.InstrRules.{unknown_rule};
ghost use Rattle.trex_profile.specs.Instruction.{instruction};
ghost use Rattle.trex_profile.specs.Order.{first_each, unless};
ghost use Rattle.trex_profile.specs.Steps.{field_of, byte_at, write_at, fixes, l4_kind, resolved, step, instrs_of, program_of};

use crate::fault::StreamFault;
use crate::instructions::names::{GivenName, operand_of};
use crate::raw::{RawInstr, RawPlace};
use crate::rule::Rule;
use std::alloc::Global;
use trex_fields::{Place, place_of};
use trex_io::Memory;
use trex_ipv6::place6_of;
use trex_layers::{LONGEST_PACKET, parse};
use trex_vm::{Instr, L4Kind, Operand};

/// What an instruction comes to, its name resolved.
#[derive(Clone, Copy, Debug, PartialEq, Eq)]
pub(crate) enum Step {
    /// A variable: nothing is done to the packet.
    Makes,
    Does(Instr),
    /// A write whose field isn't there, or has fewer bytes than are written: a rule refuses it.
    MissesField,
    /// The fix of an IPv4 header that is said to have so many bytes.
    FixesHeader {
        at: usize,
        header: usize,
    },
    /// The same, and then the fix of the segment behind it.
    FixesSegment {
        ip: usize,
        header: usize,
        kind: L4Kind,
    },
}

/// Where the field of a name lies in a template: in an IPv6 header where the other headers don't have it.
fn field_of(template: &[u8], name: &str) -> Option<Place>
    requires { length template.now ≤ LONGEST_PACKET }
    ensures { result ≡ field_of template.now name.now }
{
    if let Some(place) = place_of(&parse(template), name) {
        return Some(place);
    }
    let field = place6_of(template, name)?;
    Some(Place {
        at: field.at,
        size: field.size,
    })
}

/// The byte of a template at which a write of so many bytes begins.
fn byte_at(template: &[u8], size: u8, place: &RawPlace) -> Option<usize>
    requires { length template.now ≤ LONGEST_PACKET }
    ensures { result ≡ byte_at template.now size place.now }
{
    match place {
        RawPlace::At(n) => Some(*n as usize),
        RawPlace::Named(name) => {
            let field = field_of(template, name.text())?;
            if field.size < usize::from(size) {
                None
            } else {
                Some(field.at)
            }
        }
    }
}

/// The write of an operand into the packet.
fn write_of(template: &[u8], from: Operand, place: &RawPlace, add: i64, big: bool) -> Step
    requires { length template.now ≤ LONGEST_PACKET }
    ensures { result ≡ write_at (λ at. WriteInstr from at add big) (byte_at template.now from.size place.now) }
{
    match byte_at(template, from.size, place) {
        Some(at) => Step::Does(Instr::Write { from, at, add, big }),
        None => Step::MissesField,
    }
}

/// The fixes of an IPv4 header and of what stands behind it.
fn fixes(l2: u64, l3: u64, l4: u8) -> Step
    ensures { result ≡ fixes l2 l3 l4 }
{
    let (ip, header) = (l2 as usize, l3 as usize);
    match l4 {
        11 => Step::FixesSegment {
            ip,
            header,
            kind: L4Kind::Udp,
        },
        13 => Step::FixesSegment {
            ip,
            header,
            kind: L4Kind::Tcp,
        },
        _ => Step::FixesHeader { at: ip, header },
    }
}

/// What stands behind an IPv6 header, by its number.
fn l4_kind(l4: u8) -> L4Kind
    ensures { result ≡ l4_kind l4 }
{
    if l4 == 11 { L4Kind::Udp } else { L4Kind::Tcp }
}

/// What an instruction comes to in a template, where the name of the variable that it uses is given.
fn resolved(template: &[u8], names: &[GivenName], instr: &RawInstr) -> Option<Step>
    requires { length template.now ≤ LONGEST_PACKET }
    ensures { result ≡ resolved template.now (map given_of names.now) (instruction instr.now) }
{
    let step = match instr {
        RawInstr::Write {
            name,
            place,
            add,
            big,
        } => write_of(template, operand_of(names, name)?, place, *add, *big),
        RawInstr::WriteMask {
            name,
            place,
            cast,
            mask,
            shift,
            add,
            big,
        } => {
            let from = operand_of(names, name)?;
            match byte_at(template, *cast, place) {
                Some(at) => Step::Does(Instr::WriteMask {
                    from,
                    at,
                    cast: *cast,
                    mask: *mask,
                    shift: *shift,
                    add: *add,
                    big: *big,
                }),
                None => Step::MissesField,
            }
        }
        RawInstr::FixIpv4 { at } => Step::Does(Instr::FixIpv4 { at: *at as usize }),
        RawInstr::FixHw { l2, l3, l4 } => fixes(*l2, *l3, *l4),
        RawInstr::FixL6 { l2, l4 } => Step::Does(Instr::FixL6 {
            ip: *l2 as usize,
            kind: l4_kind(*l4),
        }),
        RawInstr::Trim { name } => Step::Does(Instr::Trim {
            from: operand_of(names, name)?,
        }),
        _ => Step::Makes,
    };
    Some(step)
}

/// What instructions come to in a template, or the rule that each variable's name is given.
pub(crate) fn steps_of(
    alloc: Global,
    template: &[u8],
    names: &[GivenName],
    instrs: &[RawInstr],
) -> Result<Vec<Step>, StreamFault>
    requires few { length instrs.now ≤ 256 }
    requires short { length template.now ≤ LONGEST_PACKET }
    ensures { Gives (λ steps. steps.items) result
        (unless (first_each (unknown_rule template.now (map given_of names.now)) 0 (map instruction instrs.now))
        (map (step template.now (map given_of names.now)) (map instruction instrs.now))) }
{
    let mut steps = Vec::new(alloc);
    for (at, instr) in instrs.iter().enumerate() {
        match resolved(template, names, instr) {
            Some(step) => steps.push(step)?,
            None => return Err(StreamFault::at_place(at as u32, Rule::UnknownVariable)),
        }
    }
    Ok(steps)
}

/// Puts the instructions of a step behind others.
fn put(instrs: &mut Vec<Instr>, step: Step) -> Result<(), Memory>
    ensures { IfOk result (λ _. instrs.new.items ≡ instrs.old.items ++ instrs_of step) }
{
    match step {
        Step::Makes | Step::MissesField => {}
        Step::Does(instr) => instrs.push(instr)?,
        Step::FixesHeader { at, .. } => instrs.push(Instr::FixIpv4 { at })?,
        Step::FixesSegment { ip, header, kind } => {
            instrs.push(Instr::FixIpv4 { at: ip })?;
            instrs.push(Instr::FixL4 { ip, header, kind })?;
        }
    }
    Ok(())
}

/// The program of steps.
pub(crate) fn program_of(alloc: Global, steps: &[Step]) -> Result<Vec<Instr>, Memory>
    ensures { IfOk result (λ instrs. instrs.items ≡ program_of steps.now) }
{
    let mut instrs = Vec::new(alloc);
    for step in steps {
        put(&mut instrs, *step)?;
    }
    Ok(instrs)
}
