// One line of a session, answered: its reply goes to the notes, and the capture of a start to the output.

ghost use Rattle.std.specs.Prelude.{◌≡◌, ◌≤◌, OnOk};
ghost use Rattle.trex_json.specs.Verdict.{verdict};
ghost use Rattle.trex_rpc.specs.Answer.{IsReply};
ghost use Rattle.trex_rpc.specs.Talk.{captured, notes_text, out_text, reply, table_of};
ghost use Rattle.trex_rpc.specs.Written.{Answered, Noted};
ghost use Rattle.trex_words.specs.Asked.{IsRunAsk};
ghost use Rattle.trex_top.specs.Ends.Session.{start_notes, start_out, starts};

use crate::capturing::{Unwritten, write_capture};
use std::alloc::Global;
use std::thread::Threads;
use trex_crew::Gate;
use trex_io::{Sink, write_all};
use trex_json::{ProfileFault, read_profile};
use trex_report::{write_refusal, write_report};
use trex_rpc::{Reply, Session, Unanswered};
use trex_words::RunAsk;

/// Writes a reply to the notes.
fn note<N: Sink>(notes: &mut N, reply: &[u8]) -> Result<(), Unanswered>
    ensures noted { Noted N.held N.faults notes.old notes.new reply.now result }
    ensures later { N.faults notes.old ≤ N.faults notes.new }
{
    match write_all(notes, reply) {
        Ok(()) => Ok(()),
        Err(_) => Err(Unanswered::NotesFault),
    }
}

/// Runs the profile of a text: the capture goes to the output and then the report to the notes, or the refusal to the notes alone.
fn start<R: Threads + Sync, O: Sink, N: Sink, G: Gate>(
    rt: &R,
    alloc: Global,
    text: &[u8],
    ask: &RunAsk,
    out: &mut O,
    notes: &mut N,
    gates: &mut [G],
) -> Result<(), Unanswered>
    requires { IsRunAsk ask.now }
    ensures answered { Answered O.held O.faults N.held N.faults out.old out.new notes.old notes.new
        (start_out ask.now (verdict text.now)) (start_notes ask.now (verdict text.now)) result }
    ensures out_later { O.faults out.old ≤ O.faults out.new }
    ensures notes_later { N.faults notes.old ≤ N.faults notes.new }
{
    let profile = match read_profile(alloc, text) {
        Ok(profile) => profile,
        Err(ProfileFault::Refused(refusal)) => {
            return match write_refusal(notes, &refusal) {
                Ok(()) => Ok(()),
                Err(_) => Err(Unanswered::NotesFault),
            };
        }
        Err(ProfileFault::Memory) => return Err(Unanswered::Memory),
    };
    match write_capture(rt, alloc, &profile, ask, out, gates) {
        Ok(tallies) => match write_report(notes, &tallies) {
            Ok(()) => Ok(()),
            Err(_) => Err(Unanswered::NotesFault),
        },
        Err(Unwritten::OutFault) => Err(Unanswered::OutFault),
        Err(Unwritten::Memory) => Err(Unanswered::Memory),
    }
}

/// Writes the capture and the text of a reply to a line that left this table.
fn answer<R: Threads + Sync, O: Sink, N: Sink, G: Gate>(
    rt: &R,
    alloc: Global,
    session: &Session,
    reply: &Reply,
    out: &mut O,
    notes: &mut N,
    gates: &mut [G],
) -> Result<(), Unanswered>
    requires { IsReply reply.now }
    ensures answered { Answered O.held O.faults N.held N.faults out.old out.new notes.old notes.new
        (out_text starts session.now reply.now) (notes_text starts session.now reply.now) result }
    ensures out_later { O.faults out.old ≤ O.faults out.new }
    ensures notes_later { N.faults notes.old ≤ N.faults notes.new }
{
    match reply {
        Reply::Text(line) => note(notes, line.bytes()),
        Reply::Quit => note(notes, b"ok\n"),
        Reply::Start(ask) => {
            let Ok(text) = session.profile_text() else {
                return Err(Unanswered::Memory);
            };
            start(rt, alloc, &text, ask, out, notes, gates)
        }
    }
}

/// Does what a line says, and writes its capture and its reply.
pub(crate) fn respond<R: Threads + Sync, O: Sink, N: Sink, G: Gate>(
    rt: &R,
    alloc: Global,
    session: &mut Session,
    line: &[u8],
    out: &mut O,
    notes: &mut N,
    gates: &mut [G],
) -> Result<(), Unanswered>
    ensures answered { Answered O.held O.faults N.held N.faults out.old out.new notes.old notes.new
        (captured starts session.old line.now) (reply starts session.old line.now) result }
    ensures table { OnOk result (session.new ≡ table_of session.old line.now) }
    ensures out_later { O.faults out.old ≤ O.faults out.new }
    ensures notes_later { N.faults notes.old ≤ N.faults notes.new }
{
    let Ok(reply) = session.line(line) else {
        return Err(Unanswered::Memory);
    };
    answer(rt, alloc, session, &reply, out, notes, gates)
}
