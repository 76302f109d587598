//! How far a run has come, and its steps.

ghost use Rattle.std.specs.Prelude.{◌≡◌, ℕ, ◌≤◌, ◌<◌, ◌^◌, ◌++◌, true, [], None, length, IfOk, OnErr};
ghost use Rattle.std.specs.List.{AllByRecursion};
ghost use Rattle.std.specs.Vec.{vec_capacity};
ghost use Rattle.trex_core.specs.Plan.{frames_of_plan};
ghost use Rattle.trex_core.specs.Texts.{records_text};
ghost use Rattle.trex_crew.specs.Crews.{works_of};
ghost use Rattle.trex_io.specs.Faults.{HasCause};
ghost use Rattle.trex_io.specs.Texts.{WrotePart};
ghost use Rattle.trex_merge.specs.Machine.{next_in};
ghost use Rattle.trex_profile.specs.Admission.{refusal_of};
ghost use Rattle.trex_run.specs.declared.pieces.TheConstants.{PIECE};
ghost use Rattle.trex_run.specs.Capture.{tallies as tallies_of};
ghost use Rattle.trex_run.specs.Ready.{first_works};
ghost use Rattle.trex_run.specs.State.{IsCurrent, IsPassed, IsShort, IsStep, ahead, cores_of, packets_reached};
ghost use Rattle.trex_run.specs.Step.{is_packet, reached};

use crate::firsts::{Coming, FirstKeys};
use crate::pieces::gather;
use crate::run::run_of;
use crate::step::{send, send_run, steps_are_events, supply};
use crate::tally::{count_all, count_next, head_of};
use std::marker::Model;
use std::thread::Threads;
use trex_core::{CoreWork, Plan, plans_rise};
use trex_crew::{Crew, Gate};
use trex_io::{Failed, Sink};
use trex_merge::{Head, Mill, Next};
use trex_report::Tally;

/// How far a run has come: its cores' works, the merge of their packets, and what was counted of each stream. Contracts see it as its plan,
/// the mill and the number of rounds.
#[derive(Drop)]
pub(crate) struct Progress<'p> {
    plan: &'p Plan<'p>,
    crew: Crew<CoreWork<'p>>,
    mill: Mill,
    firsts: FirstKeys,
    coming: Coming,
    tallies: Vec<Tally>,
}

impl<'p> Model for Progress<'p> {
    ghost use Rattle.std.specs.Prelude.{◌≡◌, ◌+◌, take};
    ghost use Rattle.std.specs.List.{AllByRecursion};
    ghost use Rattle.trex_core.specs.Plan.{frames_of_plan};
    ghost use Rattle.trex_crew.specs.Crews.{works_of};
    ghost use Rattle.trex_merge.specs.Frames.{sequence};
    ghost use Rattle.trex_run.specs.Capture.{tallies as tallies_of};
    ghost use Rattle.trex_run.specs.Firsts.{IsBound, firsts_of};
    ghost use Rattle.trex_run.specs.Ready.{HaveBase, IsReady, queues_of};
    ghost use Rattle.trex_run.specs.State.{IsEarly, RunState};
    ghost use Rattle.trex_run.specs.Step.{mill_after, packet_ahead};

    ghost Value = { RunState };

    ghost view = { λ r. record {
      plan = r.plan.now;
      state = mill_after (frames_of_plan r.plan.now) (queues_of (works_of r.crew)) r.mill.sent r.mill.limit;
      rounds = r.crew.rounds;
    } };

    ghost invariant = { λ r. IsReady (frames_of_plan r.plan.now) (works_of r.crew) r.crew.rounds r.mill.limit r.mill.sent r.coming.next
        × (r.tallies.items ≡ tallies_of r.plan.now.profile
        (take (r.mill.sent + packet_ahead r.coming.next) (sequence r.mill.limit (frames_of_plan r.plan.now))))
        × AllByRecursion IsEarly (frames_of_plan r.plan.now)
        × HaveBase r.plan.now.base (works_of r.crew)
        × (r.firsts ≡ firsts_of (queues_of (works_of r.crew)))
        × IsBound r.coming.next r.coming.before (queues_of (works_of r.crew)) };
}

impl<'p> Progress<'p> {
    /// A run before its first step, over a crew whose works haven't made a packet. The keys have a place for each core.
    pub(crate) fn start(
        plan: &'p Plan<'p>,
        crew: Crew<CoreWork<'p>>,
        limit: u64,
        firsts: FirstKeys,
        tallies: Vec<Tally>,
    ) -> Progress<'p>
        requires kept { refusal_of plan.now.profile ≡ None }
        requires short { AllByRecursion IsShort (frames_of_plan plan.now) }
        requires duration { plan.now.duration ≤ 10 ^ 18 }
        requires limit { limit ≤ 100000000 }
        requires some { 0 < length (works_of crew) }
        requires works { works_of crew ≡ first_works plan.now.base (length (works_of crew)) (frames_of_plan plan.now) }
        requires rounds { crew.rounds ≡ 0 }
        requires firsts { length firsts ≡ length (works_of crew) }
        requires tallies { tallies.items ≡ tallies_of plan.now.profile [] }
        ensures plan { result.plan ≡ plan.now }
        ensures none { reached result.state ≡ 0 }
        ensures limit { result.state.limit ≡ limit }
        ensures cores { cores_of result ≡ length (works_of crew.entry) }
        ensures rounds { result.rounds ≡ 0 }
    {
        plans_rise();
        let mill = Mill::new(limit);
        let mut firsts = firsts;
        firsts.read_all(crew.works());
        let coming = firsts.look(mill.left(), crew.works());
        Progress {
            plan,
            crew,
            mill,
            firsts,
            coming,
            tallies,
        }
    }

    /// Goes to the next packet of the sequence, as `Ready::step` says.
    pub(crate) fn step<R: Threads + Sync, G: Gate>(&mut self, rt: &R, gates: &mut [G]) -> bool
        ensures { IsStep G.entries self.old self.new gates.old gates.new result }
    {
        let then = send(
            &mut self.mill,
            &mut self.crew,
            &mut self.firsts,
            self.coming,
        );
        self.coming = supply(
            rt,
            &self.mill,
            &mut self.crew,
            &mut self.firsts,
            then,
            gates,
        );
        count_next(self.crew.works(), self.coming.next, &mut self.tallies);
        is_packet(self.coming.next)
    }

    /// Gathers the run of packets that begins with the current one, sends it, and goes to the packet after it, as a step does. Whether there
    /// is one.
    pub(crate) fn pass<R: Threads + Sync, O: Sink, G: Gate>(
        &mut self,
        rt: &R,
        piece: &mut Vec<u8>,
        out: &mut O,
        gates: &mut [G],
    ) -> Result<bool, Failed>
        requires packet { is_packet (next_in self.old.state) ≡ true }
        requires capacity { PIECE ≤ vec_capacity piece.old }
        ensures passes { IfOk result (λ found.
            IsPassed G.entries O.held self.old self.new gates.old gates.new out.old out.new piece.old.items piece.new.items found) }
        ensures part { OnErr result ((many : ℕ) × WrotePart O.held out.old out.new (piece.old.items ++ records_text self.old.plan.base (ahead many self.old))) }
        ensures kept { OnErr result ((self.new ≡ self.old) × (gates.new ≡ gates.old)) }
        ensures cause { HasCause O.faults out.old out.new result }
        ensures capacity { PIECE ≤ vec_capacity piece.new }
    {
        let feed = match self.coming.next {
            Next::Packet { feed } => feed,
            Next::Need { .. } => unreachable!(),
            Next::End => unreachable!(),
        };
        let before = self.coming.before;
        let run = run_of(self.crew.works(), feed, before, self.mill.left());
        if let Err(failed) = gather(out, piece, run.text) {
            return Err(failed);
        }
        // the current packet is counted
        count_all(&mut self.tallies, &run.packets[1..]);
        let packets = run.packets.len();
        let bytes = run.text.len();
        let then = send_run(
            &mut self.mill,
            &mut self.crew,
            &mut self.firsts,
            feed,
            packets,
            bytes,
        );
        self.coming = supply(
            rt,
            &self.mill,
            &mut self.crew,
            &mut self.firsts,
            then,
            gates,
        );
        count_next(self.crew.works(), self.coming.next, &mut self.tallies);
        Ok(is_packet(self.coming.next))
    }

    /// The packet that the last step went to.
    pub(crate) fn current(&self) -> Head<'_>
        requires { is_packet (next_in self.now.state) ≡ true }
        ensures { IsCurrent self.now result }
    {
        match self.coming.next {
            Next::Packet { feed } => head_of(self.crew.works(), feed),
            Next::Need { .. } => unreachable!(),
            Next::End => unreachable!(),
        }
    }

    /// What was counted of each stream: the packets that were sent, and the current one.
    pub(crate) fn tallies(&self) -> &[Tally]
        ensures { result.now ≡ tallies_of self.now.plan.profile (packets_reached self.now) }
    {
        &self.tallies
    }

    /// The same, where nothing else of the run is wanted any more.
    pub(crate) fn into_tallies(self) -> Vec<Tally>
        ensures { result.items ≡ tallies_of self.entry.plan.profile (packets_reached self.entry) }
    {
        self.tallies
    }
}

/// Whether a packet comes next.
fn is_packet(next: Next) -> bool
    ensures { result ≡ is_packet next }
{
    match next {
        Next::Packet { .. } => true,
        Next::Need { .. } => false,
        Next::End => false,
    }
}
