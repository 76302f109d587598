// The lines of a source, one after another, with a bound on their length. Each call of `next` gives a line; after one without a line feed
// nothing is left of a source that tells its bytes.

ghost use Rattle.std.specs.Prelude.{◌≡◌, ◌↔◌, ◌<◌, ◌≤◌, [], length, IfOk, IsErrOf, OnOk, IsTrue, position};
ghost use Rattle.std.specs.Io.KnownBytes.{Keeps, IsAtEnd};
ghost use Rattle.trex_io.specs.Faults.{HasCause, Rises};
ghost use Rattle.trex_rpc.specs.Lines.{ahead, GivesLine, is_feed, TakesFront};

use std::marker::Model;
use trex_io::{Failed, Memory, Source};

/// The most bytes of a line, its line feed not counted.
pub const LONGEST_LINE: usize = 1_048_576;

/// How many bytes one call of the source is asked for.
const PIECE: usize = 4096;

/// Why no line was given.
#[derive(Clone, Copy, Debug, PartialEq, Eq)]
pub enum LineFault {
    /// The source failed.
    Fault,
    /// There was no memory for the line.
    Memory,
    /// The line is longer than the bound.
    TooLong,
}

/// Reads the lines of a source. It keeps what one call of the source gave past the last line.
#[derive(Drop)]
pub struct LineReader {
    piece: [u8; PIECE],
    at: usize,
    end: usize,
}

impl Model for LineReader {
    ghost use Rattle.std.specs.Prelude.{ℕ, List, take, drop, ◌-◌, ◌≤◌};

    ghost Value = { List ℕ };

    ghost view = { λ r. take (r.end - r.at) (drop r.at r.piece) };

    ghost invariant = { λ r. (r.at ≤ r.end) × (r.end ≤ 4096) };
}

/// The place of the first line feed, if there is one.
fn feed_place(bytes: &[u8]) -> Option<usize>
    ensures { result ≡ position is_feed bytes.now }
{
    bytes.iter().position(|byte| *byte == b'\n')
}

impl LineReader {
    /// A reader that keeps nothing yet.
    pub fn new() -> LineReader
        ensures { result ≡ [] }
    {
        LineReader {
            piece: [0; PIECE],
            at: 0,
            end: 0,
        }
    }

    /// Whether it keeps nothing.
    fn is_empty(&self) -> bool
        ensures { IsTrue result ↔ (self.now ≡ []) }
    {
        self.at == self.end
    }

    /// Reads a piece of the source, where nothing is kept.
    fn refill<S: Source>(&mut self, source: &mut S) -> Result<(), Failed>
        requires { self.old ≡ [] }
        ensures keeps { OnOk result (Keeps (ahead S.left self.old source.old) (ahead S.left self.new source.new)) }
        ensures end { OnOk result (self.new ≡ [] → IsAtEnd (S.left source.new)) }
        ensures cause { HasCause S.faults source.old source.new result }
    {
        self.at = 0;
        self.end = 0;
        self.end = source.read(&mut self.piece)?;
        Ok(())
    }

    /// Has a piece of the source kept, where any is left.
    fn fetch<S: Source>(&mut self, source: &mut S) -> Result<(), Failed>
        ensures keeps { OnOk result (Keeps (ahead S.left self.old source.old) (ahead S.left self.new source.new)) }
        ensures end { OnOk result (self.new ≡ [] → IsAtEnd (S.left source.new)) }
        ensures cause { HasCause S.faults source.old source.new result }
    {
        if self.is_empty() {
            return self.refill(source);
        }
        Ok(())
    }

    /// Moves the kept bytes up to the first line feed to the end of a line, and answers whether there is one, which is passed over.
    fn take_front(&mut self, line: &mut Vec<u8>) -> Result<bool, Memory>
        ensures { IfOk result (λ ended. TakesFront self.old self.new line.old.items line.new.items ended) }
    {
        let kept = &self.piece[self.at..self.end];
        match feed_place(kept) {
            Some(count) => {
                line.extend_from_slice(&kept[..count])?;
                self.at += count + 1;
                Ok(true)
            }
            None => {
                line.extend_from_slice(kept)?;
                self.at = self.end;
                Ok(false)
            }
        }
    }

    /// Reads the next line into `line`, and answers whether a line feed ended it. A line that none ended is the rest of the input; it
    /// may be empty. The source isn't read while the end of the line is kept.
    pub fn next<S: Source>(&mut self, source: &mut S, line: &mut Vec<u8>) -> Result<bool, LineFault>
        ensures line { GivesLine (ahead S.left self.old source.old) (ahead S.left self.new source.new) line.new.items result }
        ensures later { S.faults source.old ≤ S.faults source.new }
        ensures fault { IsErrOf result LineFault.Fault → Rises S.faults source.old source.new }
    {
        line.clear();
        'pieces: while line.len() <= LONGEST_LINE {
            let Ok(()) = self.fetch(source) else {
                return Err(LineFault::Fault);
            };
            if self.is_empty() {
                return Ok(false);
            }
            let Ok(ended) = self.take_front(line) else {
                return Err(LineFault::Memory);
            };
            if ended {
                if line.len() > LONGEST_LINE {
                    break;
                }
                return Ok(true);
            }
        }
        Err(LineFault::TooLong)
    }
}
