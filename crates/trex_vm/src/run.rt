// Packets, made of a template.

ghost use Rattle.std.specs.Prelude.{◌≡◌, ◌+◌, ◌≤◌, List, ◌∷◌, ◌++◌, false, true, All, length, take, drop};
ghost use Rattle.std.specs.List.{list_any};
ghost use Rattle.std.specs.Option.{ForSome};
ghost use Rattle.trex_stamp.specs.Stamp.{IsStamp};
ghost use Rattle.trex_vm.specs.Fix.{fixed};
ghost use Rattle.trex_vm.specs.Packet.{after, after_all, version_of, stamped, packet};
ghost use Rattle.trex_vm.specs.declared.instr.Instr.{Instr as AnInstr};
ghost use Rattle.trex_vm.specs.Cover.{StaysFixed, HeaderVerifies};
ghost use Rattle.trex_vm.specs.Rules.{header_size, writes_past, finds_header, misses_header, overwrites_header_kind};
ghost use Rattle.trex_vm.specs.Program.{TakesFrom, IsFormed, IsFrontOf, IsTemplateOf, AreValuesOf};

use crate::effect::Fix;
use crate::fix::{fix_ipv4, fix_segment};
use crate::instr::Instr;
use crate::program::Program;
use crate::write::{shift_by, sum_in, write_masked, write_number};
use trex_stamp::{Stamp, write_stamp};
use trex_vars::VarValue;

/// Makes a packet at the front of `out`, and answers its length in bytes: the template, cut to the trim's number, with the latency header in
/// place of its last bytes where there is one, after the program's other instructions in order. What lies in `out` past the template's
/// length stays.
///
/// A header that the program fixed verifies (RFC 1071), if no later instruction writes a byte that its checksum covers; for a UDP or TCP segment,
/// if its length fits the packet.
pub fn run_plain(
    program: &Program,
    template: &[u8],
    values: &[VarValue],
    stamp: Option<Stamp>,
    out: &mut [u8],
) -> usize
    requires template { IsTemplateOf program.now template.now }
    requires values { AreValuesOf program.now values.now }
    requires stamp { version_of stamp ≡ program.now.stamp }
    requires fits { ForSome stamp IsStamp }
    requires room { length template.now ≤ length out.old }
    ensures long { result ≤ length template.now }
    ensures packet { take result out.new ≡ packet program.now.instrs values.now stamp template.now }
    ensures rest { drop (length template.now) out.new ≡ drop (length template.now) out.old }
    ensures verifies { (before : List AnInstr) (fix : AnInstr) (later : List AnInstr)
        → program.now.instrs ≡ before ++ fix ∷ later
        → StaysFixed fix later (take result out.new)
        → HeaderVerifies fix (take result out.new) }
{
    let len = program.packet_length(values);
    out[..len].copy_from_slice(&template[..len]);
    finish_packet(program, values, stamp, &mut out[..len]);
    len
}

/// Makes a packet in place of the front of its template, which is as long as the packet: writes the latency header in place of the last bytes,
/// where there is one, and applies the program's other instructions in order.
pub fn finish_packet(program: &Program, values: &[VarValue], stamp: Option<Stamp>, bytes: &mut [u8])
    requires front { IsFrontOf program.now values.now bytes.old }
    requires values { AreValuesOf program.now values.now }
    requires stamp { version_of stamp ≡ program.now.stamp }
    requires fits { ForSome stamp IsStamp }
    ensures { bytes.new ≡ after_all values.now program.now.instrs (stamped stamp bytes.old) }
{
    let instrs = program.instrs();
    write_header(stamp, bytes);
    apply_all(instrs, values, bytes);
}

/// Writes the checksum of a fix.
fn apply_fix(fix: Fix, bytes: &mut [u8])
    requires { finds_header bytes.old (length bytes.old) fix ≡ true }
    ensures { bytes.new ≡ fixed fix bytes.old }
{
    match fix {
        Fix::Header { at } => fix_ipv4(bytes, at),
        Fix::Segment {
            version,
            ip,
            header,
            kind,
        } => fix_segment(bytes, version, kind, ip, header),
    }
}

/// Applies one instruction.
fn apply(instr: &Instr, values: &[VarValue], bytes: &mut [u8])
    requires operand { TakesFrom (length values.now) instr.now }
    requires formed { IsFormed instr.now }
    requires place { writes_past (length bytes.old) instr.now ≡ false }
    requires header { misses_header bytes.old (length bytes.old) instr.now ≡ false }
    ensures { bytes.new ≡ after values.now instr.now bytes.old }
{
    match *instr {
        Instr::Write { from, at, add, big } => {
            write_number(bytes, big, from.size, at, sum_in(values, from, add));
        }
        Instr::WriteMask {
            from,
            at,
            cast,
            mask,
            shift,
            add,
            big,
        } => {
            let number = shift_by(sum_in(values, from, add), shift);
            write_masked(bytes, big, cast, at, mask, number);
        }
        _ => {
            if let Some(fix) = instr.fix_of() {
                apply_fix(fix, bytes);
            }
        }
    }
}

/// Applies the instructions, one after another.
fn apply_all(instrs: &[Instr], values: &[VarValue], bytes: &mut [u8])
    requires operands { All (TakesFrom (length values.now)) instrs.now }
    requires formed { All IsFormed instrs.now }
    requires places { list_any (writes_past (length bytes.old)) instrs.now ≡ false }
    requires headers { list_any (misses_header bytes.old (length bytes.old)) instrs.now ≡ false }
    requires kinds { list_any (overwrites_header_kind instrs.now) instrs.now ≡ false }
    ensures { bytes.new ≡ after_all values.now instrs.now bytes.old }
{
    for instr in instrs {
        apply(instr, values, bytes);
    }
}

/// Writes the latency header, if there is one, in place of the last bytes.
fn write_header(stamp: Option<Stamp>, bytes: &mut [u8])
    requires stamp { header_size (version_of stamp) ≤ length bytes.old }
    requires fits { ForSome stamp IsStamp }
    ensures { bytes.new ≡ stamped stamp bytes.old }
{
    if let Some(stamp) = stamp {
        write_stamp(&stamp, bytes);
    }
}
