//! A run that is ready: `prepare` takes all its memory, and steps take none.

ghost use Rattle.std.specs.Prelude.{◌≡◌, ◌≤◌, true, IfOk, length};
ghost use Rattle.trex_core.specs.Plan.{frames_of_plan};
ghost use Rattle.trex_crew.specs.Crews.{works_of};
ghost use Rattle.trex_merge.specs.Machine.{next_in};
ghost use Rattle.trex_words.specs.Asked.{IsRunAsk};
ghost use Rattle.trex_run.specs.Capture.{sequence, tallies as tallies_of};
ghost use Rattle.trex_run.specs.Ready.{first_works};
ghost use Rattle.trex_run.specs.State.{IsCurrent, IsStep, all_of, cores_of, packets_reached};
ghost use Rattle.trex_run.specs.Step.{is_packet, reached};

use crate::firsts::FirstKeys;
use crate::pieces::PIECE;
use crate::progress::Progress;
use crate::tally::no_tallies;
use std::alloc::Global;
use std::marker::Model;
use std::thread::Threads;
use trex_core::{CoreWork, Plan, plans_rise};
use trex_crew::{Crew, Gate};
use trex_io::Memory;
use trex_merge::Head;
use trex_profile::Profile;
use trex_report::Tally;
use trex_words::RunAsk;

/// A run that is ready: all its memory is taken. Contracts see it as its plan, the mill and the number of rounds.
#[derive(Drop)]
pub struct Ready<'p> {
    pub(crate) progress: Progress<'p>,
    // where records are joined
    pub(crate) piece: Vec<u8>,
}

impl<'p> Model for Ready<'p> {
    ghost use Rattle.std.specs.Prelude.{◌≤◌};
    ghost use Rattle.std.specs.Vec.{vec_capacity};
    ghost use Rattle.trex_run.specs.declared.pieces.TheConstants.{PIECE as WHOLE};
    ghost use Rattle.trex_run.specs.State.{RunState};

    ghost Value = { RunState };

    ghost view = { λ r. r.progress };

    ghost invariant = { λ r. WHOLE ≤ vec_capacity r.piece };
}

impl<'p> Ready<'p> {
    /// Goes to the next packet of the sequence: the current one is sent, if any, and then a round is made if a core has to be waited for.
    /// False exactly at the end of the sequence. No memory is taken.
    pub fn step<R: Threads + Sync, G: Gate>(&mut self, rt: &R, gates: &mut [G]) -> bool
        ensures { IsStep G.entries self.old self.new gates.old gates.new result }
    {
        self.progress.step(rt, gates)
    }

    /// The packet that the last step went to.
    pub fn current(&self) -> Head<'_>
        requires { is_packet (next_in self.now.state) ≡ true }
        ensures { IsCurrent self.now result }
    {
        self.progress.current()
    }

    /// What was counted of each stream: the packets that were sent, and the current one.
    pub fn tallies(&self) -> &[Tally]
        ensures { result.now ≡ tallies_of self.now.plan.profile (packets_reached self.now) }
    {
        self.progress.tallies()
    }

    /// The same, where nothing else of the run is wanted any more.
    pub fn into_tallies(self) -> Vec<Tally>
        ensures { result.items ≡ tallies_of self.entry.plan.profile (packets_reached self.entry) }
    {
        self.progress.into_tallies()
    }
}

/// The works of all cores, before their first turn.
fn crew_of<'p>(alloc: Global, plan: &'p Plan<'p>, cores: u32) -> Result<Crew<CoreWork<'p>>, Memory>
    requires some { 1 ≤ cores }
    requires few { cores ≤ 64 }
    ensures works { IfOk result (λ crew. works_of crew ≡ first_works plan.now.base cores (frames_of_plan plan.now)) }
    ensures rounds { IfOk result (λ crew. crew.rounds ≡ 0) }
{
    let mut works = Vec::new(alloc);
    for core in 0..cores {
        works.push(CoreWork::new(alloc, plan, core, cores)?)?;
    }
    Crew::new(alloc, works)
}

/// Takes all memory of a run of a profile: one work for each core, the tallies, and the piece in which records are joined.
pub fn prepare<'p>(
    alloc: Global,
    profile: &'p Profile,
    plan: &'p Plan<'p>,
    ask: &RunAsk,
) -> Result<Ready<'p>, Memory>
    requires ask { IsRunAsk ask.now }
    requires plan { plan.now ≡ record { profile = profile.now; duration = ask.now.duration; base = ask.now.base } }
    ensures plan { IfOk result (λ ready. ready.plan ≡ plan.now) }
    // What the run sends is the sequence that the profile means.
    ensures all { IfOk result (λ ready. all_of ready ≡ sequence profile.now ask.now) }
    ensures none { IfOk result (λ ready. reached ready.state ≡ 0) }
    ensures limit { IfOk result (λ ready. ready.state.limit ≡ ask.now.limit) }
    ensures cores { IfOk result (λ ready. cores_of ready ≡ ask.now.cores) }
    ensures rounds { IfOk result (λ ready. ready.rounds ≡ 0) }
{
    plans_rise();
    let streams = profile.len();
    let tallies = no_tallies(alloc, profile, streams)?;
    let crew = crew_of(alloc, plan, ask.cores)?;
    let firsts = FirstKeys::new(alloc, ask.cores)?;
    let piece = Vec::with_capacity(alloc, PIECE)?;
    let progress = Progress::start(plan, crew, ask.limit, firsts, tallies);
    Ok(Ready { progress, piece })
}
