// What stands under a name of an object, by its kind. A null counts as absent.

ghost use Rattle.std.specs.Prelude.{◌≡◌, ◌⊎◌, ◌≤◌, ◌<◌, ◌^◌, pos, negsuc, ◌≤ℤ◌, Option, None, Some, IfSome, option_map, map};
ghost use Rattle.std.specs.Option.{ForSome};
ghost use Rattle.serde_json.specs.View.{view};
ghost use Rattle.serde_json.specs.Find.{as_bool, as_str};
ghost use Rattle.trex_fields.specs.Bytes.{IsSize};
ghost use Rattle.trex_json.specs.Kinds.{an_object, an_array, whole, scaled, decimal, next_id, mode_word, rate_kind, latency_word, a_version, a_size, l4_code, l4_code6, a_signed, a_shift, an_op, instr_word, layer_word, a_mac, an_address, an_address6};
ghost use Rattle.trex_json.specs.Names.{field, under};

use crate::kinds::{self, InstrWord, LayerWord, ModeWord};
use serde_json::Value;
use trex_profile::RateKind;
use trex_stamp::Version;
use trex_vars::Op;

/// What stands under a name of an object. A null counts as absent.
pub(crate) fn under<'v>(object: &'v Value, name: &str) -> Option<&'v Value>
    ensures { option_map (λ v. view v.now) result ≡ under name.now (view object.now) }
{
    match object.get(name) {
        None | Some(Value::Null) => None,
        Some(value) => Some(value),
    }
}

/// The object under a name.
pub(crate) fn object_field<'v>(object: &'v Value, name: &str) -> Option<&'v Value>
    ensures { option_map (λ v. view v.now) result ≡ field name.now an_object None (view object.now) }
{
    kinds::an_object(under(object, name)?)
}

/// The Bool under a name, or the default.
pub(crate) fn bool_field(object: &Value, name: &str, default: bool) -> Option<bool>
    ensures { result ≡ field name.now as_bool (Some default) (view object.now) }
{
    match under(object, name) {
        None => Some(default),
        Some(value) => value.as_bool(),
    }
}

/// The whole number under a name, from 0 to the greatest, or the default.
pub(crate) fn whole_field(
    object: &Value,
    name: &str,
    greatest: u64,
    default: Option<u64>,
) -> Option<u64>
    requires { ForSome default (λ n. n ≤ greatest) }
    ensures value { result ≡ field name.now (whole greatest) default (view object.now) }
    ensures within { IfSome result (λ n. n ≤ greatest) }
{
    match under(object, name) {
        None => default,
        Some(value) => kinds::whole(value, greatest),
    }
}

/// The decimal of microseconds under a name, in nanoseconds from 0 to the greatest, or 0.
pub(crate) fn gap_field(object: &Value, name: &str, greatest: u64) -> Option<u64>
    ensures value { result ≡ field name.now (decimal 3 greatest) (Some 0) (view object.now) }
    ensures within { IfSome result (λ n. n ≤ greatest) }
{
    match under(object, name) {
        None => Some(0),
        Some(value) => kinds::decimal(value, 3, greatest),
    }
}

/// The id of the next stream under a name, none where it is absent.
pub(crate) fn next_field(object: &Value, name: &str) -> Option<Option<u32>>
    ensures value { result ≡ field name.now next_id (Some None) (view object.now) }
    ensures within { IfSome result (λ next. ForSome next (λ id. id ≤ 2147483647)) }
{
    match under(object, name) {
        None => Some(None),
        Some(value) => kinds::next_id(value),
    }
}

/// The word of a mode under a name.
pub(crate) fn mode_field(object: &Value, name: &str) -> Option<ModeWord>
    ensures { result ≡ field name.now mode_word None (view object.now) }
{
    kinds::mode_word(under(object, name)?)
}

/// What a rate counts, under a name.
pub(crate) fn rate_field(object: &Value, name: &str) -> Option<RateKind>
    ensures { result ≡ field name.now rate_kind None (view object.now) }
{
    kinds::rate_kind(under(object, name)?)
}

/// The decimal of a rate under a name, in millionths, below 10^30.
pub(crate) fn millionths_field(object: &Value, name: &str) -> Option<u128>
    ensures value { result ≡ field name.now (scaled 6) None (view object.now) }
    ensures within { IfSome result (λ n. n < 10 ^ 30) }
{
    kinds::scaled(under(object, name)?, 6)
}

/// The word of the one kind of flow under a name.
pub(crate) fn latency_field<'v>(object: &'v Value, name: &str) -> Option<&'v str>
    ensures { option_map (λ word. word.now) result ≡ field name.now latency_word None (view object.now) }
{
    kinds::latency_word(under(object, name)?)
}

/// The version of a latency header under a name, or version 1.
pub(crate) fn version_field(object: &Value, name: &str) -> Option<Version>
    ensures { result ≡ field name.now a_version (Some Version.One) (view object.now) }
{
    match under(object, name) {
        None => Some(Version::One),
        Some(value) => kinds::a_version(value),
    }
}

/// The text under a name.
pub(crate) fn text_field<'v>(object: &'v Value, name: &str) -> Option<&'v str>
    ensures { option_map (λ text. text.now) result ≡ field name.now as_str None (view object.now) }
{
    under(object, name)?.as_str()
}

/// The number of bytes under a name: 1, 2, 4 or 8.
pub(crate) fn size_field(object: &Value, name: &str) -> Option<u8>
    ensures value { result ≡ field name.now a_size None (view object.now) }
    ensures within { IfSome result IsSize }
{
    kinds::a_size(under(object, name)?)
}

/// What stands behind an IPv4 header, under a name: 11, 13 or 17.
pub(crate) fn l4_code_field(object: &Value, name: &str) -> Option<u8>
    ensures value { result ≡ field name.now l4_code None (view object.now) }
    ensures within { IfSome result (λ n. (n ≡ 11) ⊎ ((n ≡ 13) ⊎ (n ≡ 17))) }
{
    kinds::l4_code(under(object, name)?)
}

/// What stands behind an IPv6 header, under a name: 11 or 13.
pub(crate) fn l4_code6_field(object: &Value, name: &str) -> Option<u8>
    ensures value { result ≡ field name.now l4_code6 None (view object.now) }
    ensures within { IfSome result (λ n. (n ≡ 11) ⊎ (n ≡ 13)) }
{
    kinds::l4_code6(under(object, name)?)
}

/// The signed number under a name, or 0.
pub(crate) fn signed_field(object: &Value, name: &str) -> Option<i64>
    ensures { result ≡ field name.now a_signed (Some (pos 0)) (view object.now) }
{
    match under(object, name) {
        None => Some(0),
        Some(value) => kinds::a_signed(value),
    }
}

/// The number of bits under a name, from -63 to 63, or 0.
pub(crate) fn shift_field(object: &Value, name: &str) -> Option<i8>
    ensures value { result ≡ field name.now a_shift (Some (pos 0)) (view object.now) }
    ensures within { IfSome result (λ n. (negsuc 62 ≤ℤ n) × (n ≤ℤ pos 63)) }
{
    match under(object, name) {
        None => Some(0),
        Some(value) => kinds::a_shift(value),
    }
}

/// How a variable goes from packet to packet, under a name.
pub(crate) fn op_field(object: &Value, name: &str) -> Option<Op>
    ensures { result ≡ field name.now an_op None (view object.now) }
{
    kinds::an_op(under(object, name)?)
}

/// The word of an instruction under a name.
pub(crate) fn instr_field(object: &Value, name: &str) -> Option<InstrWord>
    ensures { result ≡ field name.now instr_word None (view object.now) }
{
    kinds::instr_word(under(object, name)?)
}

/// The word of a layer under a name.
pub(crate) fn layer_field(object: &Value, name: &str) -> Option<LayerWord>
    ensures { result ≡ field name.now layer_word None (view object.now) }
{
    kinds::layer_word(under(object, name)?)
}

/// The MAC address under a name.
pub(crate) fn mac_field(object: &Value, name: &str) -> Option<[u8; 6]>
    ensures { result ≡ field name.now a_mac None (view object.now) }
{
    kinds::a_mac(under(object, name)?)
}

/// The IPv4 address under a name.
pub(crate) fn address_field(object: &Value, name: &str) -> Option<u32>
    ensures { result ≡ field name.now an_address None (view object.now) }
{
    kinds::an_address(under(object, name)?)
}

/// The IPv6 address under a name.
pub(crate) fn address6_field(object: &Value, name: &str) -> Option<[u8; 16]>
    ensures { result ≡ field name.now an_address6 None (view object.now) }
{
    kinds::an_address6(under(object, name)?)
}

/// The array under a name.
pub(crate) fn array_field<'v>(object: &'v Value, name: &str) -> Option<&'v [Value]>
    ensures { option_map (λ items. map view items.now) result ≡ field name.now an_array None (view object.now) }
{
    kinds::an_array(under(object, name)?)
}
