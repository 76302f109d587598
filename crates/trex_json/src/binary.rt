// Bytes and lists of numbers.

ghost use Rattle.std.specs.Prelude.{◌≡◌, ◌-◌, ◌^◌, IfOk, map, None, Some, option_map};
ghost use Rattle.base64.specs.Engines.{standard};
ghost use Rattle.base64.specs.GeneralPurpose.{decoded_of};
ghost use Rattle.serde_json.specs.View.{view};
ghost use Rattle.trex_json.specs.Kinds.{numbers_of, bytes, values};
ghost use Rattle.trex_json.specs.Names.{field};

use crate::kinds::{an_array, whole};
use crate::names::under;
use base64::DecodeAllocError;
use base64::engine::general_purpose::STANDARD;
use serde_json::Value;
use std::alloc::Global;
use trex_io::Memory;

/// The bytes of a base64 text (RFC 4648, section 4), where it is one.
#[tactic(auto, unfolding(base64::specs::GeneralPurpose::decoded_of))]
fn base64_bytes(alloc: Global, text: &str) -> Result<Option<Vec<u8>>, Memory>
    ensures { IfOk result (λ read. option_map (λ v. v.items) read ≡ decoded_of standard text.now) }
{
    match STANDARD.decode(alloc, text.as_bytes()) {
        Ok(bytes) => Ok(Some(bytes)),
        Err(DecodeAllocError::OutOfMemory) => Err(Memory),
        Err(DecodeAllocError::DecodeError(_)) => Ok(None),
    }
}

/// The bytes of an array, where each item is a whole number from 0 to 255.
fn array_bytes(alloc: Global, items: &[Value]) -> Result<Option<Vec<u8>>, Memory>
    ensures { IfOk result (λ read. option_map (λ v. v.items) read ≡ numbers_of 255 (map view items.now)) }
{
    let mut bytes = Vec::new(alloc);
    for item in items {
        match whole(item, 255) {
            Some(byte) => bytes.push(byte as u8)?,
            None => return Ok(None),
        }
    }
    Ok(Some(bytes))
}

/// The bytes that a base64 text or an array gives, where it gives some.
fn bytes_of(alloc: Global, value: &Value) -> Result<Option<Vec<u8>>, Memory>
    ensures { IfOk result (λ read. option_map (λ v. v.items) read ≡ bytes (view value.now)) }
{
    if let Some(text) = value.as_str() {
        return base64_bytes(alloc, text);
    }
    match an_array(value) {
        Some(items) => array_bytes(alloc, items),
        None => Ok(None),
    }
}

/// The bytes under a name.
pub(crate) fn bytes_field(
    alloc: Global,
    object: &Value,
    name: &str,
) -> Result<Option<Vec<u8>>, Memory>
    ensures { IfOk result (λ read. option_map (λ v. v.items) read ≡ field name.now bytes None (view object.now)) }
{
    match under(object, name) {
        Some(value) => bytes_of(alloc, value),
        None => Ok(None),
    }
}

/// The numbers of an array, where each item is a whole number.
fn array_values(alloc: Global, items: &[Value]) -> Result<Option<Vec<u64>>, Memory>
    ensures { IfOk result (λ read. option_map (λ v. v.items) read ≡ numbers_of (2 ^ 64 - 1) (map view items.now)) }
{
    let mut values = Vec::new(alloc);
    for item in items {
        match whole(item, u64::MAX) {
            Some(value) => values.push(value)?,
            None => return Ok(None),
        }
    }
    Ok(Some(values))
}

/// The values under a name, none where it is absent.
pub(crate) fn values_field(
    alloc: Global,
    object: &Value,
    name: &str,
) -> Result<Option<Option<Vec<u64>>>, Memory>
    ensures { IfOk result (λ read. option_map (option_map (λ v. v.items)) read ≡ field name.now values (Some None) (view object.now)) }
{
    let Some(value) = under(object, name) else {
        return Ok(Some(None));
    };
    let Some(items) = an_array(value) else {
        return Ok(None);
    };
    match array_values(alloc, items)? {
        Some(values) => Ok(Some(Some(values))),
        None => Ok(None),
    }
}
