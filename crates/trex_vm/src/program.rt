// Programs over a packet's bytes.

ghost use Rattle.std.specs.Prelude.{◌≡◌, ℕ, ◌≤◌, true, List, Option, is_some, IfSome, length, map};
ghost use Rattle.trex_vars.specs.Variable.{variable_of};
ghost use Rattle.trex_vm.specs.Effect.{first_trim};
ghost use Rattle.trex_stamp.specs.declared.header.Stamp.{Stamp as AStamp};
ghost use Rattle.trex_vm.specs.Packet.{packet, trimmed, version_of};
ghost use Rattle.trex_vm.specs.Rules.{accepts};
ghost use Rattle.trex_vm.specs.Program.{AreOperandsOf, AreSound, AreValuesOf, IsProgram, IsTemplateOf, program_view};

use crate::instr::{Instr, Operand};
use crate::rules::{accepts, least_length};
use crate::write::number_in;
use std::marker::Model;
use trex_layers::{LONGEST_PACKET, SHORTEST_PACKET};
use trex_stamp::Version;
use trex_vars::{VarSpec, VarValue};

/// The instructions of a stream, checked once against its variables and its template.
#[derive(Drop)]
pub struct Program {
    instrs: Vec<Instr>,
    // the operand of the trim, if there is one
    trim: Option<Operand>,
    template: usize,
    least: usize,
    stamp: Option<Version>,
}

impl Model for Program {
    ghost use Rattle.std.specs.Prelude.{◌≡◌};
    ghost use Rattle.trex_vm.specs.Effect.{first_trim};
    ghost use Rattle.trex_vm.specs.Program.{ProgramView, IsProgram};

    ghost Value = { ProgramView };

    ghost view = { λ p. record { instrs = p.instrs.items; template = p.template; least = p.least; stamp = p.stamp } };

    ghost invariant = { λ p. IsProgram (record { instrs = p.instrs.items; template = p.template; least = p.least; stamp = p.stamp })
        × (p.trim ≡ first_trim p.instrs.items) };
}

impl Program {
    /// The program of some instructions over a stream's variables for a template, whose packets end in a latency header of the version, or in none.
    ///
    /// None exactly where an instruction breaks a rule: a second trim; a trim whose least number is below 14 or whose greatest is above the
    /// template's length; a least packet length below 14 and the latency header's length; a write that ends after the room, which is the least packet
    /// length less the latency header; a fix that doesn't find its header within the room; or an instruction that writes byte 0 or byte 9
    /// of a header that a fix names. Each operand's variable is one of `vars`; a write has 1, 2, 4 or 8 bytes; a shift goes by at most 63.
    pub fn new(
        instrs: Vec<Instr>,
        vars: &[VarSpec],
        template: &[u8],
        stamp: Option<Version>,
    ) -> Option<Program>
        requires long { SHORTEST_PACKET ≤ length template.now }
        requires short { length template.now ≤ LONGEST_PACKET }
        requires operands { AreOperandsOf (map variable_of vars.now) instrs.items }
        requires sound { AreSound (map variable_of vars.now) }
        ensures accepts { is_some result ≡ accepts (map variable_of vars.now) template.now stamp instrs.items }
        ensures plan { IfSome result (λ p. p ≡ program_view instrs.items (map variable_of vars.now) template.now stamp) }
    {
        if !accepts(vars, template, stamp, &instrs) {
            return None;
        }
        Some(Program::of_accepted(instrs, vars, template, stamp))
    }

    /// The program of instructions that break none of the rules of `new`, for a caller that knows it: no rule is tested again.
    pub fn of_accepted(
        instrs: Vec<Instr>,
        vars: &[VarSpec],
        template: &[u8],
        stamp: Option<Version>,
    ) -> Program
        requires long { SHORTEST_PACKET ≤ length template.now }
        requires short { length template.now ≤ LONGEST_PACKET }
        requires operands { AreOperandsOf (map variable_of vars.now) instrs.items }
        requires sound { AreSound (map variable_of vars.now) }
        requires accepted { accepts (map variable_of vars.now) template.now stamp instrs.items ≡ true }
        ensures { result ≡ program_view instrs.items (map variable_of vars.now) template.now stamp }
    {
        let least = least_length(vars, &instrs, template.len());
        let trim = trim_in(&instrs);
        Program {
            instrs,
            trim,
            template: template.len(),
            least,
            stamp,
        }
    }

    /// The length in bytes of the packet of some values: the number of the trim, or the whole template's length where there is none.
    pub fn packet_length(&self, values: &[VarValue]) -> usize
        requires { AreValuesOf self.now values.now }
        ensures value { result ≡ trimmed values.now self.now.instrs self.now.template }
        ensures within { result ≤ self.now.template }
        ensures sound { IsProgram self.now }
        ensures packet { (stamp : Option AStamp) (template : List ℕ) → IsTemplateOf self.now template → version_of stamp ≡ self.now.stamp
            → length (packet self.now.instrs values.now stamp template) ≡ result }
    {
        match self.trim {
            Some(from) => number_in(values, from) as usize,
            None => self.template,
        }
    }

    /// The program's instructions, and what holds of every program.
    pub(crate) fn instrs(&self) -> &[Instr]
        ensures instrs { result.now ≡ self.now.instrs }
        ensures sound { IsProgram self.now }
    {
        &self.instrs
    }
}

/// The operand of the first trim, if there is one.
fn trim_in(instrs: &[Instr]) -> Option<Operand>
    ensures { result ≡ first_trim instrs.now }
{
    for instr in instrs {
        if let Some(from) = instr.trim_of() {
            return Some(from);
        }
    }
    None
}
