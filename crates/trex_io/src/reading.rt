// A source is read to its end, within a limit.

ghost use Rattle.std.specs.Prelude.{ℕ, ◌<◌, ◌≤◌, List, length, IfOk, IfErr, OnOk, IsErrOf, vec_len};
ghost use Rattle.std.specs.Io.KnownBytes.{Consumes, IsAtEnd};
ghost use Rattle.trex_io.specs.Faults.{Rises};
ghost use Rattle.trex_io.specs.Reading.{StopsAfter};

use crate::source::Source;
use std::alloc::Global;
use thiserror::Error;

/// Why a source wasn't read to its end.
#[derive(Debug, Drop, Error)]
pub enum ReadAll {
    /// The source failed.
    #[error("the source failed")]
    Fault,
    /// The source has more bytes than the limit.
    #[error("more than {limit} bytes")]
    TooLong { limit: usize },
    /// There was no memory for the bytes.
    #[error("out of memory")]
    Memory,
}

/// How many bytes a call of the source is asked for.
const PIECE: usize = 4096;

/// Reads a source to its end. It stops with `TooLong` once it took more than `limit` bytes. Each call of the source takes a
/// byte at least or is the last, so the reading ends whatever the source.
pub fn read_all<S: Source>(alloc: Global, source: &mut S, limit: usize) -> Result<Vec<u8>, ReadAll>
    ensures ok { IfOk result (λ all. Consumes (S.left source.old) (S.left source.new) all.items) }
    ensures end { OnOk result (IsAtEnd (S.left source.new)) }
    ensures fits { IfOk result (λ all. vec_len all ≤ limit) }
    ensures err { IfErr result (λ e. (taken : List ℕ)
        × Consumes (S.left source.old) (S.left source.new) taken × StopsAfter e limit (length taken)) }
    ensures later { S.faults source.old ≤ S.faults source.new }
    ensures fault { IsErrOf result ReadAll.Fault → Rises S.faults source.old source.new }
{
    let mut all = Vec::new(alloc);
    let mut piece = [0u8; PIECE];
    loop {
        let Ok(count) = source.read(&mut piece) else {
            return Err(ReadAll::Fault);
        };
        if count == 0 {
            return Ok(all);
        }
        if count > limit - all.len() {
            return Err(ReadAll::TooLong { limit });
        }
        if all.extend_from_slice(&piece[..count]).is_err() {
            return Err(ReadAll::Memory);
        }
    }
}
