// The capture of a profile, written whole, and what was sent.

ghost use Rattle.std.specs.Prelude.{◌≡◌, ◌≤◌, IfOk, IfErr, OnOk};
ghost use Rattle.trex_crew.specs.Told.{IfTold};
ghost use Rattle.trex_io.specs.Texts.{Wrote};
ghost use Rattle.trex_words.specs.Asked.{IsRunAsk};
ghost use Rattle.trex_run.specs.Capture.{sequence, capture, tallies};
ghost use Rattle.trex_run.specs.Rounds.{AreRounds, TellEnough};
ghost use Rattle.trex_top.specs.Stops.{Unmade};

use std::alloc::Global;
use std::thread::Threads;
use trex_core::Plan;
use trex_crew::Gate;
use trex_io::Sink;
use trex_profile::Profile;
use trex_report::Tally;
use trex_run::{generate, prepare};
use trex_words::RunAsk;

/// Why a capture wasn't written whole.
pub(crate) enum Unwritten {
    OutFault,
    Memory,
}

/// Writes the capture of a profile, and answers what was sent. All memory is taken before the first byte.
pub(crate) fn write_capture<R: Threads + Sync, O: Sink, G: Gate>(
    rt: &R,
    alloc: Global,
    profile: &Profile,
    ask: &RunAsk,
    out: &mut O,
    gates: &mut [G],
) -> Result<Vec<Tally>, Unwritten>
    requires { IsRunAsk ask.now }
    ensures made { IfOk result (λ all. Wrote O.held out.old out.new (capture profile.now ask.now)
        × (all.items ≡ tallies profile.now (sequence profile.now ask.now))) }
    ensures stops { IfErr result (Unmade O.held O.faults (capture profile.now ask.now) out.old out.new) }
    ensures later { O.faults out.old ≤ O.faults out.new }
    ensures rounds { IfTold G.entries gates.old gates.new (AreRounds ask.now.cores) }
    ensures enough { OnOk result (TellEnough G.entries ask.now.cores (sequence profile.now ask.now) gates.old gates.new) }
    ensures untold { IfErr result (λ stop. stop ≡ Unwritten.Memory → gates.new ≡ gates.old) }
{
    let plan = Plan::new(profile, ask.duration, ask.base);
    let Ok(mut ready) = prepare(alloc, profile, &plan, ask) else {
        return Err(Unwritten::Memory);
    };
    match generate(rt, &mut ready, ask.base, out, gates) {
        Ok(()) => Ok(ready.into_tallies()),
        Err(_) => Err(Unwritten::OutFault),
    }
}
