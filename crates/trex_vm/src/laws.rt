// The laws of programs.

ghost use Rattle.std.specs.Prelude.{◌≡◌, ℕ, ◌≤◌, ◌++◌, true, List, Option, Some, length};
ghost use Rattle.trex_vars.specs.Variable.{Variable};
ghost use Rattle.trex_vars.specs.declared.value.VarValue.{VarValue};
ghost use Rattle.trex_vm.specs.declared.instr.Instr.{Instr as AnInstr};
ghost use Rattle.trex_stamp.specs.declared.header.Stamp.{Stamp as AStamp};
ghost use Rattle.trex_stamp.specs.declared.header.Version.{Version as AVersion};
ghost use Rattle.trex_stamp.specs.Stamp.{stamp_bytes};
ghost use Rattle.trex_vm.specs.Packet.{packet, version_of};
ghost use Rattle.trex_vm.specs.Rules.{accepts};
ghost use Rattle.trex_vm.specs.Program.{AreOperandsOf, AreValuesOf, AreWithin, IsTemplateOf, program_view};

use trex_layers::{LONGEST_PACKET, SHORTEST_PACKET};

/// A program that is accepted is meant for its template, and for all values that lie between the ends of its variables.
pub fn programs_fit()
    ensures template { (instrs : List AnInstr) (vars : List Variable) (template : List ℕ) (stamp : Option AVersion)
        → accepts vars template stamp instrs ≡ true → IsTemplateOf (program_view instrs vars template stamp) template }
    ensures values { (instrs : List AnInstr) (vars : List Variable) (template : List ℕ) (stamp : Option AVersion) (values : List VarValue)
        → AreOperandsOf vars instrs → AreWithin vars values → accepts vars template stamp instrs ≡ true
        → AreValuesOf (program_view instrs vars template stamp) values }
    // A packet is no longer than its template.
    ensures short { (instrs : List AnInstr) (vars : List Variable) (template : List ℕ) (stamp : Option AStamp) (values : List VarValue)
        → AreOperandsOf vars instrs → AreWithin vars values → accepts vars template (version_of stamp) instrs ≡ true
        → SHORTEST_PACKET ≤ length template → length template ≤ LONGEST_PACKET
        → length (packet instrs values stamp template) ≤ length template }
    // A packet with a latency header ends in it.
    ensures stamped { (instrs : List AnInstr) (vars : List Variable) (template : List ℕ) (stamp : AStamp) (values : List VarValue)
        → AreOperandsOf vars instrs → AreWithin vars values → accepts vars template (Some stamp.version) instrs ≡ true
        → SHORTEST_PACKET ≤ length template → length template ≤ LONGEST_PACKET
        → (front : List ℕ) × (packet instrs values (Some stamp) template ≡ front ++ stamp_bytes stamp) }
{}
