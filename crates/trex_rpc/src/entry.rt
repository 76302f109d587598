// A stream of a session's table.

ghost use Rattle.std.specs.Prelude.{◌≡◌, None, Some, MatchOption};
ghost use Rattle.trex_rpc.specs.Table.{holds, place_of, text_of};

use std::marker::Model;

/// A stream: its id, and its text as it was added.
#[derive(Drop)]
pub(crate) struct Entry {
    id: u32,
    text: Vec<u8>,
}

impl Model for Entry {
    ghost use Rattle.std.specs.Prelude.{ℕ, List};

    ghost Value = { ℕ × List ℕ };

    ghost view = { λ e. (e.id, e.text.items) };
}

impl Entry {
    pub(crate) fn new(id: u32, text: Vec<u8>) -> Entry
        ensures { result ≡ (id, text.items) }
    {
        Entry { id, text }
    }

    pub(crate) fn id(&self) -> u32
        ensures { result ≡ self.now.0 }
    {
        self.id
    }

    pub(crate) fn text(&self) -> &[u8]
        ensures { result.now ≡ self.now.1 }
    {
        &self.text
    }
}

/// Whether a stream has this id.
pub(crate) fn holds(entries: &[Entry], id: u32) -> bool
    ensures { result ≡ holds id entries.now }
{
    entries.iter().any(|entry| entry.id() == id)
}

/// The place of the stream of this id.
pub(crate) fn place_of(entries: &[Entry], id: u32) -> Option<usize>
    ensures { result ≡ place_of id entries.now }
{
    entries.iter().position(|entry| entry.id() == id)
}

/// The text of the stream of this id.
pub(crate) fn text_of(entries: &[Entry], id: u32) -> Option<&[u8]>
    ensures { MatchOption result (text_of id entries.now ≡ None) (λ text. text_of id entries.now ≡ Some text.now) }
{
    for entry in entries {
        if entry.id() == id {
            return Some(entry.text());
        }
    }
    None
}
