// What becomes of a line that was read, and why a session stops where none was.

ghost use Rattle.std.specs.Prelude.{◌≡◌, ◌≤◌, length};
ghost use Rattle.trex_rpc.specs.Heard.{is_end, judged, unheard};

use crate::bound::{Bound, MOST_BYTES};
use crate::line_reader::{LONGEST_LINE, LineFault};
use crate::stop::Stop;

/// What becomes of a line that was read.
#[derive(Clone, Copy, Debug, PartialEq, Eq)]
pub enum Judged {
    /// It ends the session.
    Quits,
    /// With it there is too much before `quit`.
    Breaks,
    /// It is answered; so many bytes came with it.
    Goes(u64),
}

/// Whether nothing was read, since the input is at its end.
pub fn is_end(line: &[u8], ended: bool) -> bool
    ensures { result ≡ is_end line.now ended }
{
    line.is_empty() && !ended
}

/// What becomes of a line, which a line feed ended or not, where so many bytes came before it.
pub fn judge(line: &[u8], ended: bool, before: u64) -> Judged
    requires before { before ≤ MOST_BYTES }
    requires line { length line.now ≤ LONGEST_LINE }
    ensures { result ≡ judged line.now ended before }
{
    if line == b"quit".as_slice() {
        return Judged::Quits;
    }
    let total = before + line.len() as u64 + u64::from(ended);
    if total > MOST_BYTES {
        Judged::Breaks
    } else {
        Judged::Goes(total)
    }
}

/// Why the session stops where no line was read, where so many bytes came before it.
pub fn unheard(fault: LineFault, before: u64, line: u64) -> Stop
    requires { before ≤ MOST_BYTES }
    ensures { result ≡ unheard fault before line }
{
    match fault {
        LineFault::Fault => Stop::ReadFault,
        LineFault::Memory => Stop::Memory,
        LineFault::TooLong => {
            if before + LONGEST_LINE as u64 <= MOST_BYTES {
                Stop::Bad {
                    bound: Bound::LineTooLong,
                    line,
                }
            } else {
                Stop::Bad {
                    bound: Bound::TooMuch,
                    line,
                }
            }
        }
    }
}
