// What a line of a session is answered with.

ghost use Rattle.std.specs.Prelude.{◌≡◌, IfOk};
ghost use Rattle.trex_report.specs.Texts.{refusal_line, usage_line};

use std::alloc::Global;
use std::marker::Model;
use trex_io::{MemSink, Memory};
use trex_profile::Refusal;
use trex_report::{write_refusal, write_usage};
use trex_words::{RunAsk, Usage};

/// The most bytes of a line that isn't the text of a stream.
const SHORT_LINE: usize = 256;

/// The line of a reply, its line feed included. The text of a stream may make it long.
#[derive(Drop)]
pub struct ReplyLine {
    bytes: Vec<u8>,
}

impl Model for ReplyLine {
    ghost use Rattle.std.specs.Prelude.{ℕ, List};

    ghost Value = { List ℕ };

    ghost view = { λ r. r.bytes.items };
}

impl ReplyLine {
    pub(crate) fn new(bytes: Vec<u8>) -> ReplyLine
        ensures { result ≡ bytes.items }
    {
        ReplyLine { bytes }
    }

    /// The bytes of the line.
    pub fn bytes(&self) -> &[u8]
        ensures { result.now ≡ self.now }
    {
        &self.bytes
    }
}

/// The reply to a line.
#[derive(Drop)]
pub enum Reply {
    /// A line.
    Text(ReplyLine),
    /// The capture of the table's profile, and the report on it.
    Start(RunAsk),
    /// The end of the session.
    Quit,
}

/// A text as the reply.
pub(crate) fn says(alloc: Global, text: &[u8]) -> Result<Reply, Memory>
    ensures { IfOk result (λ r. r ≡ Reply.Text text.now) }
{
    let bytes = text.to_vec(alloc)?;
    Ok(Reply::Text(ReplyLine::new(bytes)))
}

/// The line of a refusal as the reply.
pub(crate) fn says_refusal(alloc: Global, refusal: &Refusal) -> Result<Reply, Memory>
    ensures { IfOk result (λ r. r ≡ Reply.Text (refusal_line refusal.now)) }
{
    let mut line = MemSink::new(alloc, SHORT_LINE, SHORT_LINE, Vec::new(alloc))?;
    match write_refusal(&mut line, refusal) {
        Ok(()) => says(alloc, line.bytes()),
        Err(_) => Err(Memory),
    }
}

/// The line of a fault of the words as the reply.
pub(crate) fn says_usage(alloc: Global, usage: &Usage) -> Result<Reply, Memory>
    ensures { IfOk result (λ r. r ≡ Reply.Text (usage_line usage.now)) }
{
    let mut line = MemSink::new(alloc, SHORT_LINE, SHORT_LINE, Vec::new(alloc))?;
    match write_usage(&mut line, usage) {
        Ok(()) => says(alloc, line.bytes()),
        Err(_) => Err(Memory),
    }
}
