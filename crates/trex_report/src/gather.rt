// A line that is gathered on the stack: its texts and numbers in order, and then its bytes.

ghost use Rattle.std.specs.Prelude.{◌≡◌, ◌+◌, ◌≤◌, ◌++◌, [], length};

use itoa::{Buffer, Integer};
use std::marker::Model;

/// The most bytes of a line that is gathered.
pub(crate) const ROOM: usize = 512;

/// The most digits of a number.
const DIGITS: usize = 40;

/// A line that is gathered, so that it can be written at once.
#[derive(Drop)]
pub(crate) struct Gathered {
    bytes: [u8; ROOM],
    len: usize,
}

impl Model for Gathered {
    ghost use Rattle.std.specs.Prelude.{ℕ, List, take, ◌≤◌};

    ghost Value = { List ℕ };

    ghost view = { λ s. take s.len s.bytes };

    ghost invariant = { λ s. s.len ≤ 512 };
}

impl Gathered {
    /// No line yet.
    pub(crate) fn new() -> Gathered
        ensures { result ≡ [] }
    {
        Gathered {
            bytes: [0; ROOM],
            len: 0,
        }
    }

    /// Adds a text.
    pub(crate) fn text(&mut self, text: &[u8])
        requires { length self.old + length text.now ≤ ROOM }
        ensures { self.new ≡ self.old ++ text.now }
    {
        let end = self.len + text.len();
        self.bytes[self.len..end].copy_from_slice(text);
        self.len = end;
    }

    /// Adds a number, after a text that says of what.
    pub(crate) fn number<I: Integer>(&mut self, name: &[u8], number: I)
        requires { length self.old + length name.now + DIGITS ≤ ROOM }
        ensures text { self.new ≡ self.old ++ name.now ++ I.text number }
        ensures short { length self.new ≤ length self.old + length name.now + DIGITS }
    {
        self.text(name);
        self.text(Buffer::new().format(number).as_bytes());
    }

    /// What was gathered.
    pub(crate) fn bytes(&self) -> &[u8]
        ensures { result.now ≡ self.now }
    {
        &self.bytes[..self.len]
    }
}
