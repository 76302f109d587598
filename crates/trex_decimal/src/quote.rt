// Number tokens are put between quotes, so that JSON reads them as texts. The text is cut into pieces from the left: a JSON text, a
// number token, or any other single byte.

ghost use Rattle.std.specs.Prelude.{◌≡◌, ◌<◌, ◌≤◌, ◌+◌, ◌++◌, ◌&&◌, ◌==◌, not, false, length, drop, slice_index, take_while, IfOk, OnOk};
ghost use Rattle.trex_decimal.specs.Quoted.{begins_token, is_token_byte, text_len, rest_len, kept, quoted};

use std::alloc::Global;
use trex_io::Memory;

/// Whether a byte begins a number token.
fn begins_token(byte: u8) -> bool
    ensures { result ≡ begins_token byte }
{
    byte.is_ascii_digit() || byte == b'-'
}

/// Whether a number token goes on over a byte.
fn is_token_byte(byte: u8) -> bool
    ensures { result ≡ is_token_byte byte }
{
    byte.is_ascii_digit() || matches!(byte, b'+' | b'-' | b'.' | b'e' | b'E')
}

/// Whether a byte is the one that is wanted and isn't protected by a backslash before it.
fn is_bare(byte: u8, wanted: u8, protected: bool) -> bool
    ensures { result ≡ (not protected && (byte == wanted)) }
{
    !protected && byte == wanted
}

/// How many of these bytes belong to the JSON text whose opening quote stands before them.
fn text_len(bytes: &[u8]) -> usize
    ensures value { result ≡ text_len false bytes.now }
    ensures within { result ≤ length bytes.now }
{
    let mut protected = false;
    for (at, byte) in bytes.iter().enumerate() {
        if is_bare(*byte, b'"', protected) {
            return at + 1;
        }
        protected = is_bare(*byte, b'\\', protected);
    }
    bytes.len()
}

/// How many of these bytes a number token goes on over.
fn token_len(bytes: &[u8]) -> usize
    ensures value { result ≡ length (take_while is_token_byte bytes.now) }
    ensures within { result ≤ length bytes.now }
{
    bytes
        .iter()
        .take_while(|byte| is_token_byte(**byte))
        .count()
}

/// How many of the bytes after the first byte of a piece belong to it.
fn rest_len(first: u8, after: &[u8]) -> usize
    ensures value { result ≡ rest_len first after.now }
    ensures within { result ≤ length after.now }
{
    if first == b'"' {
        text_len(after)
    } else if begins_token(first) {
        token_len(after)
    } else {
        0
    }
}

/// How many bytes the first piece of a text has.
fn piece_len(text: &[u8]) -> usize
    requires { 0 < length text.now }
    ensures value { result ≡ 1 + rest_len (slice_index text.now 0) (drop 1 text.now) }
    ensures within { result ≤ length text.now }
{
    1 + rest_len(text[0], &text[1..])
}

/// Appends a piece, a number token between quotes.
fn push_piece(out: &mut Vec<u8>, piece: &[u8]) -> Result<(), Memory>
    requires { 0 < length piece.now }
    ensures { OnOk result (out.new.items ≡ out.old.items ++ kept piece.now) }
{
    let token = begins_token(piece[0]);
    if token {
        out.push(b'"')?;
    }
    out.extend_from_slice(piece)?;
    if token {
        out.push(b'"')?;
    }
    Ok(())
}

/// A text with each number token that stands outside JSON texts put between quotes. A token begins at a digit or `-` and goes
/// on over digits and the characters `+ - . e E`. All other bytes stay. Inside a JSON text a backslash protects the byte
/// after it.
pub fn quote_numbers(alloc: Global, text: &[u8]) -> Result<Vec<u8>, Memory>
    ensures { IfOk result (λ v. v.items ≡ quoted text.now) }
{
    let mut out = Vec::new(alloc);
    let mut rest = text;
    while !rest.is_empty() {
        let (piece, after) = rest.split_at(piece_len(rest));
        push_piece(&mut out, piece)?;
        rest = after;
    }
    Ok(out)
}
