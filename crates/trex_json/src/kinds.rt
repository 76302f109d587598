// The kinds of values that a profile's names have.

ghost use Rattle.std.specs.Prelude.{◌≡◌, ◌⊎◌, ◌≤◌, ◌<◌, ◌^◌, pos, negsuc, ◌≤ℤ◌, IfSome, option_map, map};
ghost use Rattle.std.specs.Option.{ForSome};
ghost use Rattle.serde_json.specs.View.{view};
ghost use Rattle.trex_fields.specs.Bytes.{IsSize};
ghost use Rattle.trex_json.specs.Kinds.{an_object, an_array, whole, scaled, decimal, id_of, next_id, mode_of_word, mode_word, rate_of_word, rate_kind, if_latency, latency_word, a_version, a_size, l4_code, l4_code6, a_signed, shift_of, a_shift, op_of_word, an_op, instr_of_word, instr_word, layer_of_word, layer_word, a_mac, an_address, an_address6};

use crate::addresses::{address_of, mac_of};
use serde_json::Value;
use trex_ipv6::address6_of;
use trex_profile::RateKind;
use trex_stamp::Version;
use trex_vars::Op;

/// The word of a mode.
#[derive(Clone, Copy, Debug, PartialEq, Eq)]
pub(crate) enum ModeWord {
    Continuous,
    SingleBurst,
    MultiBurst,
}

/// The word of an instruction.
#[derive(Clone, Copy, Debug, PartialEq, Eq)]
pub(crate) enum InstrWord {
    FlowVar,
    RandLimit,
    Tuple,
    Write,
    WriteMask,
    FixIpv4,
    FixHw,
    FixIpv6,
    Trim,
}

/// The word of a layer.
#[derive(Clone, Copy, Debug, PartialEq, Eq)]
pub(crate) enum LayerWord {
    Ethernet,
    Vlan,
    Ipv4,
    Ipv6,
    Tcp,
    Udp,
    Raw,
}

/// The value, where it is an object.
pub(crate) fn an_object(value: &Value) -> Option<&Value>
    ensures { option_map (λ v. view v.now) result ≡ an_object (view value.now) }
{
    match value {
        Value::Object(_) => Some(value),
        _ => None,
    }
}

/// The items of an array.
pub(crate) fn an_array(value: &Value) -> Option<&[Value]>
    ensures { option_map (λ items. map view items.now) result ≡ an_array (view value.now) }
{
    let items = value.as_array()?;
    Some(items.as_slice())
}

/// A whole number from 0 to the greatest.
pub(crate) fn whole(value: &Value, greatest: u64) -> Option<u64>
    ensures value { result ≡ whole greatest (view value.now) }
    ensures within { IfSome result (λ n. n ≤ greatest) }
{
    let n = trex_decimal::whole(value.as_str()?)?;
    if n <= greatest { Some(n) } else { None }
}

/// A decimal times 10 to the power of digits, floored, below 10^30.
pub(crate) fn scaled(value: &Value, digits: u32) -> Option<u128>
    requires { digits ≤ 9 }
    ensures value { result ≡ scaled digits (view value.now) }
    ensures within { IfSome result (λ n. n < 10 ^ 30) }
{
    match trex_decimal::scaled(value.as_str()?, digits) {
        Ok(n) => Some(n),
        Err(_) => None,
    }
}

/// A decimal times 10 to the power of digits, floored, from 0 to the greatest.
pub(crate) fn decimal(value: &Value, digits: u32, greatest: u64) -> Option<u64>
    requires { digits ≤ 9 }
    ensures value { result ≡ decimal digits greatest (view value.now) }
    ensures within { IfSome result (λ n. n ≤ greatest) }
{
    let n = scaled(value, digits)?;
    if n <= u128::from(greatest) {
        Some(n as u64)
    } else {
        None
    }
}

/// The id of the next stream, from 0 to 2147483647, or none for -1.
pub(crate) fn next_id(value: &Value) -> Option<Option<u32>>
    ensures value { result ≡ next_id (view value.now) }
    ensures within { IfSome result (λ next. ForSome next (λ id. id ≤ 2147483647)) }
{
    id_of(trex_decimal::signed(value.as_str()?)?)
}

/// The id that a signed number gives.
fn id_of(n: i64) -> Option<Option<u32>>
    ensures value { result ≡ id_of n }
    ensures within { IfSome result (λ next. ForSome next (λ id. id ≤ 2147483647)) }
{
    if n == -1 {
        return Some(None);
    }
    if n < 0 || n > 2_147_483_647 {
        return None;
    }
    Some(Some(n as u32))
}

/// The mode of that word.
fn mode_of_word(word: &str) -> Option<ModeWord>
    ensures { result ≡ mode_of_word word.now }
{
    match word {
        "continuous" => Some(ModeWord::Continuous),
        "single_burst" => Some(ModeWord::SingleBurst),
        "multi_burst" => Some(ModeWord::MultiBurst),
        _ => None,
    }
}

/// The word of a mode.
pub(crate) fn mode_word(value: &Value) -> Option<ModeWord>
    ensures { result ≡ mode_word (view value.now) }
{
    mode_of_word(value.as_str()?)
}

/// What a rate of that word counts.
fn rate_of_word(word: &str) -> Option<RateKind>
    ensures { result ≡ rate_of_word word.now }
{
    match word {
        "pps" => Some(RateKind::Pps),
        "bps_L1" => Some(RateKind::BpsL1),
        "bps_L2" => Some(RateKind::BpsL2),
        _ => None,
    }
}

/// What a rate counts.
pub(crate) fn rate_kind(value: &Value) -> Option<RateKind>
    ensures { result ≡ rate_kind (view value.now) }
{
    rate_of_word(value.as_str()?)
}

/// The word, where it is that of the one kind of flow.
fn if_latency(word: &str) -> Option<&str>
    ensures { option_map (λ word. word.now) result ≡ if_latency word.now }
{
    if word == "latency" { Some(word) } else { None }
}

/// The word of the one kind of flow.
pub(crate) fn latency_word(value: &Value) -> Option<&str>
    ensures { option_map (λ word. word.now) result ≡ latency_word (view value.now) }
{
    if_latency(value.as_str()?)
}

/// The version of a latency header: 1 or 2.
pub(crate) fn a_version(value: &Value) -> Option<Version>
    ensures { result ≡ a_version (view value.now) }
{
    match whole(value, 2)? {
        1 => Some(Version::One),
        2 => Some(Version::Two),
        _ => None,
    }
}

/// A number of bytes in which a number is held: 1, 2, 4 or 8.
pub(crate) fn a_size(value: &Value) -> Option<u8>
    ensures value { result ≡ a_size (view value.now) }
    ensures within { IfSome result IsSize }
{
    let n = whole(value, 8)?;
    if matches!(n, 1 | 2 | 4 | 8) {
        Some(n as u8)
    } else {
        None
    }
}

/// What stands behind an IPv4 header: 11, 13 or 17.
pub(crate) fn l4_code(value: &Value) -> Option<u8>
    ensures value { result ≡ l4_code (view value.now) }
    ensures within { IfSome result (λ n. (n ≡ 11) ⊎ ((n ≡ 13) ⊎ (n ≡ 17))) }
{
    let n = whole(value, 17)?;
    if matches!(n, 11 | 13 | 17) {
        Some(n as u8)
    } else {
        None
    }
}

/// What stands behind an IPv6 header: 11 or 13.
pub(crate) fn l4_code6(value: &Value) -> Option<u8>
    ensures value { result ≡ l4_code6 (view value.now) }
    ensures within { IfSome result (λ n. (n ≡ 11) ⊎ (n ≡ 13)) }
{
    let n = whole(value, 13)?;
    if matches!(n, 11 | 13) {
        Some(n as u8)
    } else {
        None
    }
}

/// A signed number.
pub(crate) fn a_signed(value: &Value) -> Option<i64>
    ensures { result ≡ a_signed (view value.now) }
{
    trex_decimal::signed(value.as_str()?)
}

/// The number of bits that a signed number gives, from -63 to 63.
fn shift_of(n: i64) -> Option<i8>
    ensures value { result ≡ shift_of n }
    ensures within { IfSome result (λ n. (negsuc 62 ≤ℤ n) × (n ≤ℤ pos 63)) }
{
    if n < -63 || n > 63 {
        return None;
    }
    Some(n as i8)
}

/// A number of bits, from -63 to 63, to the left where it is positive.
pub(crate) fn a_shift(value: &Value) -> Option<i8>
    ensures value { result ≡ a_shift (view value.now) }
    ensures within { IfSome result (λ n. (negsuc 62 ≤ℤ n) × (n ≤ℤ pos 63)) }
{
    shift_of(a_signed(value)?)
}

/// How a variable of that word goes from packet to packet.
fn op_of_word(word: &str) -> Option<Op>
    ensures { result ≡ op_of_word word.now }
{
    match word {
        "inc" => Some(Op::Inc),
        "dec" => Some(Op::Dec),
        "random" => Some(Op::Random),
        _ => None,
    }
}

/// How a variable goes from packet to packet.
pub(crate) fn an_op(value: &Value) -> Option<Op>
    ensures { result ≡ an_op (view value.now) }
{
    op_of_word(value.as_str()?)
}

/// The instruction of that word.
fn instr_of_word(word: &str) -> Option<InstrWord>
    ensures { result ≡ instr_of_word word.now }
{
    match word {
        "flow_var" => Some(InstrWord::FlowVar),
        "flow_var_rand_limit" => Some(InstrWord::RandLimit),
        "tuple_flow_var" => Some(InstrWord::Tuple),
        "write_flow_var" => Some(InstrWord::Write),
        "write_mask_flow_var" => Some(InstrWord::WriteMask),
        "fix_checksum_ipv4" => Some(InstrWord::FixIpv4),
        "fix_checksum_hw" => Some(InstrWord::FixHw),
        "fix_checksum_ipv6" => Some(InstrWord::FixIpv6),
        "trim_pkt_size" => Some(InstrWord::Trim),
        _ => None,
    }
}

/// The word of an instruction.
pub(crate) fn instr_word(value: &Value) -> Option<InstrWord>
    ensures { result ≡ instr_word (view value.now) }
{
    instr_of_word(value.as_str()?)
}

/// The layer of that word.
fn layer_of_word(word: &str) -> Option<LayerWord>
    ensures { result ≡ layer_of_word word.now }
{
    match word {
        "Ethernet" => Some(LayerWord::Ethernet),
        "Vlan" => Some(LayerWord::Vlan),
        "Ipv4" => Some(LayerWord::Ipv4),
        "Ipv6" => Some(LayerWord::Ipv6),
        "Tcp" => Some(LayerWord::Tcp),
        "Udp" => Some(LayerWord::Udp),
        "Raw" => Some(LayerWord::Raw),
        _ => None,
    }
}

/// The word of a layer.
pub(crate) fn layer_word(value: &Value) -> Option<LayerWord>
    ensures { result ≡ layer_word (view value.now) }
{
    layer_of_word(value.as_str()?)
}

/// A MAC address.
pub(crate) fn a_mac(value: &Value) -> Option<[u8; 6]>
    ensures { result ≡ a_mac (view value.now) }
{
    mac_of(value.as_str()?)
}

/// An IPv4 address.
pub(crate) fn an_address(value: &Value) -> Option<u32>
    ensures { result ≡ an_address (view value.now) }
{
    address_of(value.as_str()?)
}

/// An IPv6 address.
pub(crate) fn an_address6(value: &Value) -> Option<[u8; 16]>
    ensures { result ≡ an_address6 (view value.now) }
{
    address6_of(value.as_str()?)
}
