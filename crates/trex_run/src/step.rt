//! The two events of the merge over a crew: the packet that comes next is sent, and a round is made if a core has to be waited for.

ghost use Rattle.std.specs.Prelude.{◌≡◌, ℕ, ◌+◌, ◌-◌, ◌<◌, ◌≤◌, ◌^◌, true, false, List, map, length, take};
ghost use Rattle.std.specs.List.{AllByRecursion};
ghost use Rattle.trex_core.specs.Texts.{records_text};
ghost use Rattle.trex_core.specs.Works.{turned};
ghost use Rattle.trex_crew.specs.Crews.{works_of};
ghost use Rattle.trex_merge.specs.declared.next.Next.{Next as ANext};
ghost use Rattle.trex_merge.specs.declared.next.Next.TheVariants.{Need as ANeed};
ghost use Rattle.trex_merge.specs.Frames.{Frame, key_of};
ghost use Rattle.trex_merge.specs.Machine.{Emit, IsMill, happens, run};
ghost use Rattle.trex_merge.specs.Order.{ordered};
ghost use Rattle.trex_merge.specs.Queues.{Queue, at_place, is_needy, next_of, refilled, stem, waiting_at};
ghost use Rattle.trex_merge.specs.Runs.{dropped};
ghost use Rattle.trex_run.specs.Firsts.{IsBound, firsts_of};
ghost use Rattle.trex_run.specs.Ready.{base_at, marks_of, queues_of};
ghost use Rattle.trex_run.specs.Rounds.{EnteredAfter};
ghost use Rattle.trex_run.specs.Step.{is_packet, mill_after, packet_ahead, queues_after, round_from, rounds_after, works_after};

use crate::firsts::{Coming, FirstKeys};
use crate::run::drop_run;
use std::thread::Threads;
use trex_core::CoreWork;
use trex_crew::{Crew, Gate};
use trex_merge::{Mill, Next};

/// Sends the packet that comes next, if any, and tells what comes then.
pub(crate) fn send(
    mill: &mut Mill,
    crew: &mut Crew<CoreWork<'_>>,
    firsts: &mut FirstKeys,
    coming: Coming,
) -> Coming
    requires next { coming.next ≡ next_of (mill.old.limit - mill.old.sent) (queues_of (works_of crew.old)) }
    requires bound { IsBound coming.next coming.before (queues_of (works_of crew.old)) }
    requires firsts { firsts.old ≡ firsts_of (queues_of (works_of crew.old)) }
    ensures queues { queues_of (works_of crew.new) ≡ queues_after coming.next (queues_of (works_of crew.old)) }
    ensures marks { marks_of (works_of crew.new) ≡ marks_of (works_of crew.old) }
    ensures rounds { crew.new.rounds ≡ crew.old.rounds }
    ensures sent { mill.new.sent ≡ mill.old.sent + packet_ahead coming.next }
    ensures limit { mill.new.limit ≡ mill.old.limit }
    ensures firsts { firsts.new ≡ firsts_of (queues_of (works_of crew.new)) }
    ensures next { result.next ≡ next_of (mill.new.limit - mill.new.sent) (queues_of (works_of crew.new)) }
    ensures bound { IsBound result.next result.before (queues_of (works_of crew.new)) }
{
    match coming.next {
        Next::Packet { feed } => {
            mill.take(crew.works_mut(), feed);
            firsts.read(crew.works(), feed);
            firsts.look(mill.left(), crew.works())
        }
        Next::Need { .. } => coming,
        Next::End => coming,
    }
}

/// Sends the run at a core, of so many packets whose records have so many bytes, and tells what comes then.
pub(crate) fn send_run(
    mill: &mut Mill,
    crew: &mut Crew<CoreWork<'_>>,
    firsts: &mut FirstKeys,
    feed: usize,
    packets: usize,
    bytes: usize,
) -> Coming
    requires firsts { firsts.old ≡ firsts_of (queues_of (works_of crew.old)) }
    requires within { feed < length (works_of crew.old) }
    requires packets { packets ≤ length (waiting_at feed (queues_of (works_of crew.old))) }
    requires bytes { bytes ≡ length (records_text (base_at feed (works_of crew.old)) (take packets (waiting_at feed (queues_of (works_of crew.old))))) }
    requires limit { mill.old.sent + packets ≤ mill.old.limit }
    ensures queues { queues_of (works_of crew.new) ≡ at_place (dropped packets) feed (queues_of (works_of crew.old)) }
    ensures marks { marks_of (works_of crew.new) ≡ marks_of (works_of crew.old) }
    ensures rounds { crew.new.rounds ≡ crew.old.rounds }
    ensures sent { mill.new.sent ≡ mill.old.sent + packets }
    ensures limit { mill.new.limit ≡ mill.old.limit }
    ensures firsts { firsts.new ≡ firsts_of (queues_of (works_of crew.new)) }
    ensures next { result.next ≡ next_of (mill.new.limit - mill.new.sent) (queues_of (works_of crew.new)) }
    ensures bound { IsBound result.next result.before (queues_of (works_of crew.new)) }
{
    drop_run(crew.works_mut(), feed, packets, bytes);
    mill.pass(packets as u64);
    firsts.read(crew.works(), feed);
    firsts.look(mill.left(), crew.works())
}

/// Makes a round if a core has to be waited for, and tells what comes then.
pub(crate) fn supply<R: Threads + Sync, G: Gate>(
    rt: &R,
    mill: &Mill,
    crew: &mut Crew<CoreWork<'_>>,
    firsts: &mut FirstKeys,
    coming: Coming,
    gates: &mut [G],
) -> Coming
    requires rounds { crew.old.rounds < 2 ^ 40 }
    requires turns { AllByRecursion (λ work. work.turns < 2 ^ 63) (works_of crew.old) }
    requires next { coming.next ≡ next_of (mill.now.limit - mill.now.sent) (queues_of (works_of crew.old)) }
    requires bound { IsBound coming.next coming.before (queues_of (works_of crew.old)) }
    requires firsts { firsts.old ≡ firsts_of (queues_of (works_of crew.old)) }
    ensures works { works_of crew.new ≡ works_after turned coming.next (works_of crew.old) }
    ensures rounds { crew.new.rounds ≡ rounds_after coming.next crew.old.rounds }
    ensures gates { EnteredAfter G.entries (λ work. work.core) coming.next (works_of crew.old) crew.old.rounds gates.old gates.new }
    ensures firsts { firsts.new ≡ firsts_of (queues_of (works_of crew.new)) }
    ensures next { result.next ≡ next_of (mill.now.limit - mill.now.sent) (queues_of (works_of crew.new)) }
    ensures bound { IsBound result.next result.before (queues_of (works_of crew.new)) }
{
    match coming.next {
        Next::Need { .. } => {
            crew.round(rt, gates);
            firsts.read_all(crew.works());
            firsts.look(mill.left(), crew.works())
        }
        Next::Packet { .. } => coming,
        Next::End => coming,
    }
}

/// The laws of a step: it is made of the mill's events.
pub(crate) fn steps_are_events()
    // Sending the packet that comes next is the event of the mill.
    ensures emit { (frames : List Frame) (queues : List Queue) (sent limit : ℕ) (next : ANext) → IsMill frames (mill_after frames queues sent limit)
        → sent ≤ length (ordered key_of frames) → next ≡ next_of (limit - sent) queues
        → (happens (mill_after frames queues sent limit) Emit ≡ mill_after frames (queues_after next queues) (sent + packet_ahead next) limit)
        × (sent + packet_ahead next ≤ length (ordered key_of frames)) }
    // A round is one refill of each core.
    ensures round { (added : Queue → ℕ) (frames : List Frame) (queues : List Queue) (sent limit : ℕ)
        → run (round_from added 0 queues) (mill_after frames queues sent limit)
        ≡ mill_after frames (map (λ queue. refilled (added queue) queue) queues) sent limit }
    // After a round that was needed, and that leaves no core to be waited for, a packet comes next.
    ensures goes_on { (more core : ℕ) (queues after : List Queue) → next_of more queues ≡ ANeed core → map stem after ≡ map stem queues
        → AllByRecursion (λ queue. is_needy queue ≡ false) after → is_packet (next_of more after) ≡ true }
{}
