// The entry of a record: the JSON value of a stream that sends the record's bytes once.

ghost use Rattle.std.specs.Prelude.{◌≡◌, IfOk, string_bytes};
ghost use Rattle.serde_json.specs.View.{view};
ghost use Rattle.trex_import.specs.Document.{entry_data, entry_of};
ghost use Rattle.trex_import.specs.Imported.{microseconds};

use base64::engine::general_purpose::STANDARD;
use serde_json::{Value, json};
use std::alloc::{AllocError, Global};

/// Nanoseconds as microseconds, with three digits after the point.
fn microseconds(alloc: Global, ns: u64) -> Result<String, AllocError>
    ensures { IfOk result (λ text. string_bytes text ≡ microseconds ns) }
{
    format!(in alloc; "{}.{:03}", ns / 1000, ns % 1000)
}

/// The entry of a gap, a packet and an id that are texts.
fn entry_of(alloc: Global, gap: String, packet: String, id: String) -> Result<Value, AllocError>
    ensures { IfOk result (λ v. view v ≡ entry_of (string_bytes gap) (string_bytes packet) (string_bytes id)) }
{
    json!(in alloc; {
        "stream": {
            "isg": gap,
            "mode": {
                "rate": {"type": "pps", "value": "1000000000"},
                "total_pkts": "1",
                "type": "single_burst"
            },
            "packet": {"binary": packet}
        },
        "stream_id": id
    })
}

/// The entry of the stream of this id that sends these bytes once, so many nanoseconds from the start.
pub(crate) fn entry(alloc: Global, id: u64, ns: u64, bytes: &[u8]) -> Result<Value, AllocError>
    ensures { IfOk result (λ v. view v ≡ entry_data id ns bytes.now) }
{
    let gap = microseconds(alloc, ns)?;
    let packet = STANDARD.encode(alloc, bytes)?;
    let id = format!(in alloc; "{id}")?;
    entry_of(alloc, gap, packet, id)
}
