// Numbers of variables, written into a packet.

ghost use Rattle.std.specs.Prelude.{◌≡◌, ◌+◌, ◌<◌, ◌≤◌, ◌≤ℤ◌, pos, negsuc, length};
ghost use Rattle.trex_fields.specs.Bytes.{IsSize};
ghost use Rattle.trex_vm.specs.Write.{part_of, number_in, sum_in, number_at, shifted, masked, with_number, with_masked_number};

use crate::instr::{Operand, Part};
use trex_fields::{read_be, read_le, write_be, write_le};
use trex_vars::VarValue;

/// A part of a variable's value: 0 where the value has no such part.
pub(crate) fn part_of(part: Part, value: VarValue) -> u64
    ensures { result ≡ part_of part value }
{
    match (part, value) {
        (Part::Whole, VarValue::One(number)) => number,
        (Part::Ip, VarValue::Pair { ip, .. }) => u64::from(ip),
        (Part::Port, VarValue::Pair { port, .. }) => u64::from(port),
        _ => 0,
    }
}

/// The number that an operand takes from the values of the variables.
pub(crate) fn number_in(values: &[VarValue], from: Operand) -> u64
    requires { from.var < length values.now }
    ensures { result ≡ number_in values.now from }
{
    part_of(from.part, values[from.var])
}

/// The operand's number with another added to it, modulo 2^64.
pub(crate) fn sum_in(values: &[VarValue], from: Operand, add: i64) -> u64
    requires { from.var < length values.now }
    ensures { result ≡ sum_in values.now from add }
{
    number_in(values, from).wrapping_add_signed(add)
}

/// The number shifted by at most 63 bits: to the left where `shift` is positive, to the right where it is negative.
pub(crate) fn shift_by(number: u64, shift: i8) -> u64
    requires low { negsuc 62 ≤ℤ shift }
    requires high { shift ≤ℤ pos 63 }
    ensures { result ≡ shifted shift number }
{
    let bits = u32::from(shift.unsigned_abs());
    if shift < 0 {
        number >> bits
    } else {
        number << bits
    }
}

/// The bits of the new number where the mask has ones, those of the old number elsewhere.
fn mask_in(old: u64, new: u64, mask: u64) -> u64
    ensures { result ≡ masked mask new old }
{
    (old & !mask) | (new & mask)
}

/// The number of 1, 2, 4 or 8 bytes at a place.
fn read_number(bytes: &[u8], big: bool, size: u8, at: usize) -> u64
    requires size { IsSize size }
    requires room { at + size ≤ length bytes.now }
    ensures { result ≡ number_at big size at bytes.now }
{
    match (size, big) {
        (1, true) => read_be::<1>(bytes, at),
        (1, false) => read_le::<1>(bytes, at),
        (2, true) => read_be::<2>(bytes, at),
        (2, false) => read_le::<2>(bytes, at),
        (4, true) => read_be::<4>(bytes, at),
        (4, false) => read_le::<4>(bytes, at),
        (_, true) => read_be::<8>(bytes, at),
        (_, false) => read_le::<8>(bytes, at),
    }
}

/// Writes the lowest 1, 2, 4 or 8 bytes of a number at a place.
pub(crate) fn write_number(bytes: &mut [u8], big: bool, size: u8, at: usize, number: u64)
    requires size { IsSize size }
    requires room { at + size ≤ length bytes.old }
    ensures { bytes.new ≡ with_number big size at number bytes.old }
{
    match (size, big) {
        (1, true) => write_be::<1>(bytes, at, number),
        (1, false) => write_le::<1>(bytes, at, number),
        (2, true) => write_be::<2>(bytes, at, number),
        (2, false) => write_le::<2>(bytes, at, number),
        (4, true) => write_be::<4>(bytes, at, number),
        (4, false) => write_le::<4>(bytes, at, number),
        (_, true) => write_be::<8>(bytes, at, number),
        (_, false) => write_le::<8>(bytes, at, number),
    }
}

/// Writes those bits of a number where the mask has ones into the number of 1, 2, 4 or 8 bytes at a place.
pub(crate) fn write_masked(bytes: &mut [u8], big: bool, size: u8, at: usize, mask: u64, number: u64)
    requires size { IsSize size }
    requires room { at + size ≤ length bytes.old }
    ensures { bytes.new ≡ with_masked_number big size at mask number bytes.old }
{
    let old = read_number(bytes, big, size, at);
    write_number(bytes, big, size, at, mask_in(old, number, mask));
}
