// A buffer is filled from a source, which may give its bytes in pieces of any size.

ghost use Rattle.std.specs.Prelude.{◌<◌, ◌≤◌, length, take, IfOk};
ghost use Rattle.std.specs.Io.KnownBytes.{Consumes, IsAtEnd};
ghost use Rattle.trex_io.specs.Faults.{HasCause};

use trex_io::{Failed, Source};

/// Puts the next bytes of the source into the buffer, until it is full or the source ends, and answers how many.
pub(crate) fn fill<S: Source>(source: &mut S, into: &mut [u8]) -> Result<usize, Failed>
    ensures bound { IfOk result (λ n. n ≤ length into.old) }
    ensures bytes { IfOk result (λ n. Consumes (S.left source.old) (S.left source.new) (take n into.new)) }
    ensures end { IfOk result (λ n. n < length into.old → IsAtEnd (S.left source.new)) }
    ensures cause { HasCause S.faults source.old source.new result }
{
    let mut done = 0;
    while done < into.len() {
        match source.read(&mut into[done..]) {
            Ok(0) => return Ok(done),
            Ok(count) => done += count,
            Err(failed) => return Err(failed),
        }
    }
    Ok(done)
}
