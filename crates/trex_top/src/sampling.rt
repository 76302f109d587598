// The sample: a line that shows what the machine makes of a profile that a seed determines.

ghost use Rattle.std.specs.Prelude.{◌≡◌, OnErr, OnOk, IfOk, IfErr};
ghost use Rattle.trex_crew.specs.Told.{IfTold};
ghost use Rattle.trex_io.specs.Texts.{Wrote};
ghost use Rattle.trex_words.specs.Asked.{IsSampleAsk};
ghost use Rattle.trex_run.specs.Rounds.{AreRounds, TellEnough};
ghost use Rattle.trex_report.specs.Texts.{line_text};
ghost use Rattle.trex_top.specs.Sample.{Unshown, line_of, sample_counts, sample_sequence, sample_text};

use std::alloc::Global;
use std::thread::Threads;
use thiserror::Error;
use trex_core::Plan;
use trex_crew::Gate;
use trex_io::{Memory, Sink};
use trex_report::{Line, write_line};
use trex_run::{Counts, count_run, prepare};
use trex_sample::sample_profile;
use trex_words::{RunAsk, SampleAsk};

/// Why the line of a sample wasn't written.
#[derive(Clone, Copy, Debug, PartialEq, Eq, Drop, Error)]
pub enum SampleFault {
    /// The output failed, and a part of the line may stand there.
    #[error("the output failed")]
    Out,
    /// There was no memory for the profile or for its run, and nothing was written.
    #[error("out of memory")]
    Memory,
}

/// The line of a sample of which this is counted.
fn line(ask: &SampleAsk, counts: &Counts) -> Line
    ensures { line_text result ≡ line_of ask.now counts.now }
{
    Line::Sample {
        seed: ask.seed,
        streams: ask.streams,
        packets: counts.packets,
        bytes: counts.bytes,
        sum: counts.sum,
    }
}

/// Makes the profile of a sample and counts what its run sends.
fn count_sample<R: Threads + Sync, G: Gate>(
    rt: &R,
    alloc: Global,
    ask: &SampleAsk,
    gates: &mut [G],
) -> Result<Counts, Memory>
    requires { IsSampleAsk ask.now }
    ensures counts { IfOk result (λ counts. counts ≡ sample_counts ask.now) }
    ensures rounds { IfTold G.entries gates.old gates.new (AreRounds ask.now.run.cores) }
    ensures enough { OnOk result (TellEnough G.entries ask.now.run.cores (sample_sequence ask.now) gates.old gates.new) }
    ensures untold { OnErr result (gates.new ≡ gates.old) }
{
    let run = RunAsk { base: 0, ..ask.run };
    let profile = sample_profile(alloc, ask.seed, ask.streams)?;
    let plan = Plan::new(&profile, run.duration, run.base);
    let mut ready = prepare(alloc, &profile, &plan, &run)?;
    Ok(count_run(rt, &mut ready, gates))
}

/// Runs the profile that a seed determines, and writes one line on what it sends. The packets go by and none is held.
pub fn sample<R: Threads + Sync, O: Sink, G: Gate>(
    rt: &R,
    alloc: Global,
    ask: &SampleAsk,
    out: &mut O,
    gates: &mut [G],
) -> Result<(), SampleFault>
    requires { IsSampleAsk ask.now }
    ensures done { OnOk result (Wrote O.held out.old out.new (sample_text ask.now)) }
    ensures stops { IfErr result (Unshown O.held O.faults (sample_text ask.now) out.old out.new) }
    ensures rounds { IfTold G.entries gates.old gates.new (AreRounds ask.now.run.cores) }
    ensures enough { OnOk result (TellEnough G.entries ask.now.run.cores (sample_sequence ask.now) gates.old gates.new) }
    ensures untold { IfErr result (λ fault. fault ≡ SampleFault.Memory → gates.new ≡ gates.old) }
{
    let Ok(counts) = count_sample(rt, alloc, ask, gates) else {
        return Err(SampleFault::Memory);
    };
    match write_line(out, line(ask, &counts)) {
        Ok(()) => Ok(()),
        Err(_) => Err(SampleFault::Out),
    }
}
