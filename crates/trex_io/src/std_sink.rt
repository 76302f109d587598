// A writer of std as a sink.

ghost use Rattle.std.specs.Prelude.{◌≡◌, ◌<◌, ◌≤◌, length, IfSome, None};

use crate::fault::Failed;
use crate::sink::Sink;
use std::io::Write;

/// A sink over a writer of std. It tells no bytes, since a flush may fail after a write that took some.
#[derive(Drop)]
pub struct StdSink<W> {
    inner: W,
    faults: u64,
}

impl<W: Write> StdSink<W> {
    /// A sink over this writer, which hasn't failed yet.
    pub fn new(inner: W) -> StdSink<W>
        ensures { ⟦<StdSink<W> as Sink>⟧.faults result ≡ 0 }
    {
        StdSink { inner, faults: 0 }
    }
}

/// Writes a piece and flushes, and answers how many bytes were taken. None comes after an error of either, and where none of
/// a piece's bytes was taken.
fn write_through<W: Write>(inner: &mut W, piece: &[u8]) -> Option<usize>
    ensures { IfSome result (λ n. (n ≤ length piece.now) × (0 < length piece.now → 0 < n)) }
{
    let count = inner.write(piece).ok()?;
    if count == 0 && !piece.is_empty() {
        return None;
    }
    inner.flush().ok()?;
    Some(count)
}

impl<W: Write> Sink for StdSink<W> {
    ghost held = { λ _. None };

    ghost faults = { λ s. s.faults };

    /// Calls the writer's `write` and then its `flush`. The count of faults rises at each error, and where the writer takes
    /// none of a piece's bytes; it stands still at its last value.
    fn write(&mut self, piece: &[u8]) -> Result<usize, Failed> {
        match write_through(&mut self.inner, piece) {
            Some(count) => Ok(count),
            None => {
                self.faults = self.faults.saturating_add(1);
                Err(Failed)
            }
        }
    }
}
