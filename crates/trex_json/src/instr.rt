// The instructions of a stream.

ghost use Rattle.std.specs.Prelude.{◌≡◌, ◌≤◌, ◌-◌, ◌^◌, length, map, All, Option, None, Some, IfOk, IfSome, option_map, if◌then◌else◌};
ghost use Rattle.serde_json.specs.View.{view};
ghost use Rattle.trex_fields.specs.Bytes.{IsSize};
ghost use Rattle.trex_profile.specs.Answer.{Gives};
ghost use Rattle.trex_profile.specs.Instruction.{instruction, IsRawInstr, FixIpv4};
ghost use Rattle.trex_profile.specs.Order.{first_each, unless};
ghost use Rattle.trex_json.specs.Kinds.{place_of_text};
ghost use Rattle.trex_json.specs.Names.{row_value};
ghost use Rattle.trex_json.specs.Operands.{numbers_wrong, numbers, flow_var_wrong, flow_var, rand_limit_wrong, rand_limit, tuple_wrong, tuple, write_wrong, write, write_mask_wrong, write_mask, fix_hw_wrong, fix_hw, fix_ipv6_wrong, fix_ipv6, operands_wrong, instruction_by, instr_rules, instruction_of};
ghost use Rattle.trex_json.specs.Rows as row;

use crate::binary::values_field;
use crate::kinds::{InstrWord, an_object};
use crate::names::{
    bool_field, instr_field, l4_code_field, l4_code6_field, op_field, shift_field, signed_field,
    size_field, text_field, whole_field,
};
use serde_json::Value;
use std::alloc::Global;
use trex_io::Memory;
use trex_profile::{Name, RawInstr, RawPlace, Rule, StreamFault};

/// The name of a variable.
fn name_field(alloc: Global, item: &Value) -> Result<Option<Name>, Memory>
    ensures { IfOk result (λ name. name ≡ row_value row.name (view item.now)) }
{
    match text_field(item, "name") {
        Some(text) => Ok(Some(Name::of(alloc, text)?)),
        None => Ok(None),
    }
}

/// Whether a variable begins anew at each visit.
fn restart_field(item: &Value) -> Option<bool>
    ensures { result ≡ row_value row.restart (view item.now) }
{
    bool_field(item, "restart", false)
}

/// Where a write begins: the byte that a text writes, else the field that it names.
fn place_of(alloc: Global, text: &str) -> Result<RawPlace, Memory>
    ensures { IfOk result (λ place. place ≡ place_of_text text.now) }
{
    match trex_decimal::whole(text) {
        Some(at) => Ok(RawPlace::At(at)),
        None => Ok(RawPlace::Named(Name::of(alloc, text)?)),
    }
}

/// Where an instruction's write begins.
fn place_field(alloc: Global, item: &Value) -> Result<Option<RawPlace>, Memory>
    ensures { IfOk result (λ place. place ≡ row_value row.write_offset (view item.now)) }
{
    match text_field(item, "pkt_offset") {
        Some(text) => Ok(Some(place_of(alloc, text)?)),
        None => Ok(None),
    }
}

/// The greatest number of so many bytes.
fn greatest_of(size: u8) -> u64
    requires { IsSize size }
    ensures { result ≡ 256 ^ size - 1 }
{
    match size {
        1 => 0xff,
        2 => 0xffff,
        4 => 0xffff_ffff,
        _ => u64::MAX,
    }
}

/// The numbers of a counter.
#[derive(Clone, Copy)]
struct Numbers {
    min: u64,
    max: u64,
    init: u64,
    step: u64,
}

/// The numbers of a counter of so many bytes.
#[tactic(auto, unfolding(crate::specs::Operands::numbers_wrong))]
fn numbers_of(size: u8, item: &Value) -> Option<Numbers>
    requires { IsSize size }
    ensures { result ≡ (if numbers_wrong size (view item.now) then None else Some (numbers size (view item.now))) }
{
    let min = whole_field(item, "min_value", u64::MAX, Some(0))?;
    let max = whole_field(item, "max_value", u64::MAX, Some(greatest_of(size)))?;
    let init = whole_field(item, "init_value", u64::MAX, Some(min))?;
    let step = whole_field(item, "step", u64::MAX, Some(1))?;
    Some(Numbers {
        min,
        max,
        init,
        step,
    })
}

/// A counter, or a list where there are values.
#[tactic(auto, unfolding(crate::specs::Operands::flow_var_wrong))]
fn flow_var(name: Name, values: Option<Vec<u64>>, item: &Value) -> Option<RawInstr>
    ensures value { option_map instruction result
        ≡ (if flow_var_wrong (view item.now) then None else Some (flow_var name (option_map (λ v. v.items) values) (view item.now))) }
    ensures range { IfSome result (λ instr. IsRawInstr (instruction instr)) }
{
    let size = size_field(item, "size")?;
    let op = op_field(item, "op")?;
    let numbers = numbers_of(size, item)?;
    let restart = restart_field(item)?;
    Some(match values {
        None => RawInstr::FlowVar {
            name,
            size,
            op,
            init: numbers.init,
            min: numbers.min,
            max: numbers.max,
            step: numbers.step,
            restart,
        },
        Some(values) => RawInstr::ListVar {
            name,
            size,
            op,
            step: numbers.step,
            values,
            restart,
        },
    })
}

/// Random numbers with a limit, drawn with the stream's seed where there is none of their own.
#[tactic(auto, unfolding(crate::specs::Operands::rand_limit_wrong))]
fn rand_limit(name: Name, seed: u64, item: &Value) -> Option<RawInstr>
    ensures value { option_map instruction result
        ≡ (if rand_limit_wrong seed (view item.now) then None else Some (rand_limit name seed (view item.now))) }
    ensures range { IfSome result (λ instr. IsRawInstr (instruction instr)) }
{
    let size = size_field(item, "size")?;
    let min = whole_field(item, "min_value", u64::MAX, Some(0))?;
    let max = whole_field(item, "max_value", u64::MAX, Some(greatest_of(size)))?;
    let limit = whole_field(item, "limit", u64::MAX, None)?;
    let seed = whole_field(item, "seed", u64::MAX, Some(seed))?;
    let restart = restart_field(item)?;
    Some(RawInstr::RandLimit {
        name,
        size,
        min,
        max,
        limit,
        seed,
        restart,
    })
}

/// Pairs of an address and a port.
#[tactic(auto, unfolding(crate::specs::Operands::tuple_wrong))]
fn tuple(name: Name, item: &Value) -> Option<RawInstr>
    ensures value { option_map instruction result ≡ (if tuple_wrong (view item.now) then None else Some (tuple name (view item.now))) }
    ensures range { IfSome result (λ instr. IsRawInstr (instruction instr)) }
{
    let ip_min = whole_field(item, "ip_min", 4_294_967_295, None)?;
    let ip_max = whole_field(item, "ip_max", 4_294_967_295, None)?;
    let port_min = whole_field(item, "port_min", 65_535, None)?;
    let port_max = whole_field(item, "port_max", 65_535, None)?;
    let limit = whole_field(item, "limit_flows", 4_294_967_295, Some(0))?;
    let restart = restart_field(item)?;
    Some(RawInstr::Tuple {
        name,
        ip_min: ip_min as u32,
        ip_max: ip_max as u32,
        port_min: port_min as u16,
        port_max: port_max as u16,
        limit: limit as u32,
        restart,
    })
}

/// A write at a place.
#[tactic(auto, unfolding(crate::specs::Operands::write_wrong))]
fn write(name: Name, place: RawPlace, item: &Value) -> Option<RawInstr>
    ensures value { option_map instruction result ≡ (if write_wrong (view item.now) then None else Some (write name place (view item.now))) }
    ensures range { IfSome result (λ instr. IsRawInstr (instruction instr)) }
{
    let add = signed_field(item, "add_value")?;
    let big = bool_field(item, "is_big_endian", true)?;
    Some(RawInstr::Write {
        name,
        place,
        add,
        big,
    })
}

/// A masked write at a place.
#[tactic(auto, unfolding(crate::specs::Operands::write_mask_wrong))]
fn write_mask(name: Name, place: RawPlace, item: &Value) -> Option<RawInstr>
    ensures value { option_map instruction result
        ≡ (if write_mask_wrong (view item.now) then None else Some (write_mask name place (view item.now))) }
    ensures range { IfSome result (λ instr. IsRawInstr (instruction instr)) }
{
    let add = signed_field(item, "add_value")?;
    let big = bool_field(item, "is_big_endian", true)?;
    let cast = size_field(item, "pkt_cast_size")?;
    let mask = whole_field(item, "mask", u64::MAX, None)?;
    let shift = shift_field(item, "shift")?;
    Some(RawInstr::WriteMask {
        name,
        place,
        cast,
        mask,
        shift,
        add,
        big,
    })
}

/// The fixes of a header and of what stands behind it.
#[tactic(auto, unfolding(crate::specs::Operands::fix_hw_wrong))]
fn fix_hw(item: &Value) -> Option<RawInstr>
    ensures value { option_map instruction result ≡ (if fix_hw_wrong (view item.now) then None else Some (fix_hw (view item.now))) }
    ensures range { IfSome result (λ instr. IsRawInstr (instruction instr)) }
{
    let l2 = whole_field(item, "l2_len", u64::MAX, None)?;
    let l3 = whole_field(item, "l3_len", u64::MAX, None)?;
    let l4 = l4_code_field(item, "l4_type")?;
    Some(RawInstr::FixHw { l2, l3, l4 })
}

/// The fix of what stands behind an IPv6 header.
#[tactic(auto, unfolding(crate::specs::Operands::fix_ipv6_wrong))]
fn fix_ipv6(item: &Value) -> Option<RawInstr>
    ensures value { option_map instruction result ≡ (if fix_ipv6_wrong (view item.now) then None else Some (fix_ipv6 (view item.now))) }
    ensures range { IfSome result (λ instr. IsRawInstr (instruction instr)) }
{
    let l2 = whole_field(item, "l2_len", u64::MAX, None)?;
    let l4 = l4_code6_field(item, "l4_type")?;
    Some(RawInstr::FixL6 { l2, l4 })
}

/// The fix of an IPv4 header.
fn fix_ipv4(item: &Value) -> Option<RawInstr>
    ensures value { option_map instruction result ≡ option_map FixIpv4 (row_value row.fix_offset (view item.now)) }
    ensures range { IfSome result (λ instr. IsRawInstr (instruction instr)) }
{
    let at = whole_field(item, "pkt_offset", u64::MAX, None)?;
    Some(RawInstr::FixIpv4 { at })
}

/// An instruction of that word, where its operands are there and of their kinds.
fn instr_by(
    alloc: Global,
    seed: u64,
    word: InstrWord,
    item: &Value,
) -> Result<Option<RawInstr>, Memory>
    ensures value { IfOk result (λ read. option_map instruction read
        ≡ (if operands_wrong seed word (view item.now) then None else Some (instruction_by seed word (view item.now)))) }
    ensures range { IfOk result (λ read. IfSome read (λ instr. IsRawInstr (instruction instr))) }
{
    match word {
        InstrWord::FixIpv4 => return Ok(fix_ipv4(item)),
        InstrWord::FixHw => return Ok(fix_hw(item)),
        InstrWord::FixIpv6 => return Ok(fix_ipv6(item)),
        _ => {}
    }
    let Some(name) = name_field(alloc, item)? else {
        return Ok(None);
    };
    Ok(match word {
        InstrWord::FlowVar => match values_field(alloc, item, "value_list")? {
            Some(values) => flow_var(name, values, item),
            None => None,
        },
        InstrWord::RandLimit => rand_limit(name, seed, item),
        InstrWord::Tuple => tuple(name, item),
        InstrWord::Write => match place_field(alloc, item)? {
            Some(place) => write(name, place, item),
            None => None,
        },
        InstrWord::WriteMask => match place_field(alloc, item)? {
            Some(place) => write_mask(name, place, item),
            None => None,
        },
        _ => Some(RawInstr::Trim { name }),
    })
}

/// The instruction at a place.
#[tactic(auto, unfolding(crate::specs::Operands::instr_rules))]
fn instr_of(alloc: Global, seed: u64, place: u32, item: &Value) -> Result<RawInstr, StreamFault>
    ensures value { Gives instruction result (unless (instr_rules seed place (view item.now)) (instruction_of seed (view item.now))) }
    ensures range { IfOk result (λ instr. IsRawInstr (instruction instr)) }
{
    let item = an_object(item).ok_or(StreamFault::at_place(place, Rule::BadInstruction))?;
    let word = instr_field(item, "type").ok_or(StreamFault::at_place(place, Rule::BadInstruction))?;
    instr_by(alloc, seed, word, item)?.ok_or(StreamFault::at_place(place, Rule::BadOperand))
}

/// The instructions of a stream, in order.
pub(crate) fn each_instr(
    alloc: Global,
    seed: u64,
    items: &[Value],
) -> Result<Vec<RawInstr>, StreamFault>
    requires { length items.now ≤ 256 }
    ensures value { Gives (λ instrs. map instruction instrs.items) result
        (unless (first_each (instr_rules seed) 0 (map view items.now)) (map (instruction_of seed) (map view items.now))) }
    ensures few { IfOk result (λ instrs. length instrs.items ≤ 256) }
    ensures ranges { IfOk result (λ instrs. All IsRawInstr (map instruction instrs.items)) }
{
    let mut instrs = Vec::new(alloc);
    for (at, item) in items.iter().enumerate() {
        match instr_of(alloc, seed, at as u32, item) {
            Ok(instr) => instrs.push(instr)?,
            Err(fault) => return Err(fault),
        }
    }
    Ok(instrs)
}
