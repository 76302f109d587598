//! What a run leaves, as text.

use crate::memory::Ran;
use std::alloc::Global;
use std::str;
use std::test::Fail;

/// How many bytes the header of a capture has, and that of a record.
const FILE_HEADER: usize = 24;

const RECORD_HEADER: usize = 16;

/// The status, what the notes got, and what the output got, with tabs between them.
pub(crate) fn shown(alloc: Global, ran: &Ran) -> Result<String, Fail> {
    let status = ran.status;
    let notes = text_of(alloc, ran.notes.bytes())?;
    let out = text_of(alloc, ran.out.bytes())?;
    Ok(format!(in alloc; "{status:?}\t{notes}\t{out}")?)
}

/// A text in quotes; the digits of what is none, which is a capture.
fn text_of(alloc: Global, bytes: &[u8]) -> Result<String, Fail> {
    match str::from_utf8(bytes) {
        Ok(text) => Ok(format!(in alloc; "{text:?}")?),
        Err(_) => digits_of(alloc, bytes),
    }
}

/// A capture in hexadecimal digits: its header, and each record's header and packet, with spaces between them.
fn digits_of(alloc: Global, capture: &[u8]) -> Result<String, Fail> {
    let (header, mut rest) = capture.split_at(capture.len().min(FILE_HEADER));
    let mut text = hex::encode(alloc, header)?;
    for _ in 0..capture.len() {
        if rest.is_empty() {
            break;
        }
        let (head, after) = rest.split_at(rest.len().min(RECORD_HEADER));
        let (packet, others) = after.split_at(length_in(head).min(after.len()));
        for part in [head, packet] {
            text.push_str(" ")?;
            text.push_str(hex::encode(alloc, part)?.as_str())?;
        }
        rest = others;
    }
    Ok(text)
}

/// The captured length that stands in a record's header.
fn length_in(head: &[u8]) -> usize {
    match head {
        [_, _, _, _, _, _, _, _, a, b, c, d, ..] => u32::from_le_bytes([*a, *b, *c, *d]) as usize,
        _ => 0,
    }
}
