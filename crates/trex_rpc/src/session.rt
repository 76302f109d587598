// The table of a session, and what its lines do to it.

ghost use Rattle.std.specs.Prelude.{◌≡◌, ◌∷◌, [], codes, map, string_bytes, IfOk};
ghost use Rattle.std.specs.List.{slice_split};
ghost use Rattle.trex_rpc.specs.Answer.{added, answer, answer_text, appended, got, id_of, is_space, plain, removed, says, spaced, started, GivesAnswer};
ghost use Rattle.trex_rpc.specs.Table.{ids_line, profile_text};

use crate::entry::{Entry, holds, place_of, text_of};
use crate::reply::{Reply, ReplyLine, says, says_refusal};
use crate::starting::start_reply;
use crate::stream_text::broken_rule;
use crate::words::{cut_at_space, run_words};
use itoa::Buffer;
use std::alloc::Global;
use std::marker::Model;
use std::str;
use trex_decimal::whole;
use trex_io::Memory;
use trex_json::read_entry_id;

/// The greatest id of a stream.
const GREATEST_ID: u64 = 2_147_483_647;

/// The most streams of a table.
const MOST_STREAMS: usize = 4_096;

/// The table of streams that a session keeps. Contracts see the list of their ids and texts, in the order in which they were added.
#[derive(Drop)]
pub struct Session {
    alloc: Global,
    entries: Vec<Entry>,
}

impl Model for Session {
    ghost use Rattle.trex_rpc.specs.Table.{Table};

    ghost Value = { Table };

    ghost view = { λ s. s.entries.items };
}

/// The id that a text writes.
fn id_of(text: &str) -> Option<u32>
    ensures { result ≡ id_of text.now }
{
    let id = whole(text)?;
    if id <= GREATEST_ID {
        Some(id as u32)
    } else {
        None
    }
}

/// The line of all ids.
fn ids_line(alloc: Global, entries: &[Entry]) -> Result<ReplyLine, Memory>
    ensures { IfOk result (λ line. line ≡ ids_line entries.now) }
{
    let mut line = Vec::from_slice(alloc, b"ids")?;
    let mut id = Buffer::new();
    for entry in entries {
        line.push(b' ')?;
        line.extend_from_slice(id.format(entry.id()).as_bytes())?;
    }
    line.push(b'\n')?;
    Ok(ReplyLine::new(line))
}

impl Session {
    /// A session with an empty table, which takes its memory from this allocator.
    pub fn new(alloc: Global) -> Session
        ensures { result ≡ [] }
    {
        Session {
            alloc,
            entries: Vec::new(alloc),
        }
    }

    /// Adds a stream at the end, unless its id is held or the table is full.
    fn append(&mut self, id: u32, text: &str) -> Result<Reply, Memory>
        ensures { GivesAnswer (appended self.old id text.now) self.old self.new result }
    {
        if holds(&self.entries, id) {
            return says(self.alloc, b"refused: DuplicateId\n");
        }
        if self.entries.len() >= MOST_STREAMS {
            return says(self.alloc, b"refused: TableFull\n");
        }
        let reply = says(self.alloc, b"ok\n")?;
        let text = Vec::from_slice(self.alloc, text.as_bytes())?;
        self.entries.push(Entry::new(id, text))?;
        Ok(reply)
    }

    /// Adds the stream of a text, unless the text is no JSON text or breaks a rule of profiles.
    fn add(&mut self, text: &str) -> Result<Reply, Memory>
        ensures { GivesAnswer (added self.old text.now) self.old self.new result }
    {
        let Some(id) = read_entry_id(self.alloc, text.as_bytes())? else {
            return says(self.alloc, b"refused: NotJson\n");
        };
        match broken_rule(self.alloc, text.as_bytes())? {
            Some(refusal) => says_refusal(self.alloc, &refusal),
            None => self.append(id, text),
        }
    }

    /// Removes the stream of the id that a text writes.
    fn remove(&mut self, text: &str) -> Result<Reply, Memory>
        ensures { GivesAnswer (removed self.old text.now) self.old self.new result }
    {
        let Some(id) = id_of(text) else {
            return says(self.alloc, b"refused: BadStreamId\n");
        };
        let Some(at) = place_of(&self.entries, id) else {
            return says(self.alloc, b"refused: NoSuchStream\n");
        };
        let reply = says(self.alloc, b"ok\n")?;
        self.entries.remove(at);
        Ok(reply)
    }

    /// The text of the stream of the id that a text writes.
    fn get(&self, text: &str) -> Result<Reply, Memory>
        ensures { GivesAnswer (got self.now text.now) self.now self.now result }
    {
        let Some(id) = id_of(text) else {
            return says(self.alloc, b"refused: BadStreamId\n");
        };
        let Some(stream) = text_of(&self.entries, id) else {
            return says(self.alloc, b"refused: NoSuchStream\n");
        };
        let mut line = Vec::from_slice(self.alloc, stream)?;
        line.push(b'\n')?;
        Ok(Reply::Text(ReplyLine::new(line)))
    }

    /// Removes all streams.
    fn remove_all(&mut self) -> Result<Reply, Memory>
        ensures { GivesAnswer (says [] (codes "ok\n")) self.old self.new result }
    {
        let reply = says(self.alloc, b"ok\n")?;
        self.entries.clear();
        Ok(reply)
    }

    /// The ids of all streams.
    fn list(&self) -> Result<Reply, Memory>
        ensures { GivesAnswer (says self.now (ids_line self.now)) self.now self.now result }
    {
        Ok(Reply::Text(ids_line(self.alloc, &self.entries)?))
    }

    /// A run without options.
    fn start_plain(&self) -> Result<Reply, Memory>
        ensures { GivesAnswer (started self.now []) self.now self.now result }
    {
        let mut words = Vec::new(self.alloc);
        words.push(String::from_str(self.alloc, "run")?)?;
        start_reply(self.alloc, &words)
    }

    /// A run with the options that a text has.
    fn start(&self, text: &str) -> Result<Reply, Memory>
        ensures { GivesAnswer (started self.now (slice_split is_space text.now)) self.now self.now result }
    {
        let words = run_words(self.alloc, text)?;
        start_reply(self.alloc, &words)
    }

    /// A line without a space.
    fn plain(&mut self, line: &str) -> Result<Reply, Memory>
        ensures { GivesAnswer (plain self.old line.now) self.old self.new result }
    {
        match line {
            "get_stream_list" => self.list(),
            "remove_all_streams" => self.remove_all(),
            "start" => self.start_plain(),
            "quit" => Ok(Reply::Quit),
            _ => says(self.alloc, b"refused: UnknownCommand\n"),
        }
    }

    /// A command, and what stands behind the space after it.
    fn spaced(&mut self, command: &str, rest: &str) -> Result<Reply, Memory>
        ensures { GivesAnswer (spaced self.old command.now rest.now) self.old self.new result }
    {
        match command {
            "add_stream" => self.add(rest),
            "remove_stream" => self.remove(rest),
            "get_stream" => self.get(rest),
            "start" => self.start(rest),
            _ => says(self.alloc, b"refused: UnknownCommand\n"),
        }
    }

    /// A line that is text.
    fn text(&mut self, line: &str) -> Result<Reply, Memory>
        ensures { GivesAnswer (answer_text self.old line.now) self.old self.new result }
    {
        match cut_at_space(line) {
            None => self.plain(line),
            Some((command, rest)) => self.spaced(command, rest),
        }
    }

    /// Does what a line says, and answers the reply to it. The line has no line feed. After `Memory` the table is as before.
    pub fn line(&mut self, line: &[u8]) -> Result<Reply, Memory>
        ensures { GivesAnswer (answer self.old line.now) self.old self.new result }
    {
        match str::from_utf8(line) {
            Ok(text) => self.text(text),
            Err(_) => says(self.alloc, b"refused: NotText\n"),
        }
    }

    /// The profile of all streams, as a JSON text.
    #[tactic(auto, unfolding(crate::specs::Table::profile_text))]
    pub fn profile_text(&self) -> Result<Vec<u8>, Memory>
        ensures { IfOk result (λ text. text.items ≡ profile_text self.now) }
    {
        let mut text = Vec::from_slice(self.alloc, b"[")?;
        if let Some((first, others)) = self.entries.split_first() {
            text.extend_from_slice(first.text())?;
            for other in others {
                text.push(b',')?;
                text.extend_from_slice(other.text())?;
            }
        }
        text.push(b']')?;
        Ok(text)
    }
}
