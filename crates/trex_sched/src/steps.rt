// From one run of a chain to the next, and from one packet of a core to its next.

ghost use Rattle.std.specs.Prelude.{◌≡◌, ◌+◌, ◌*◌, ◌%◌, ◌^◌, ◌<◌, ◌≤◌, ℕ, unwrap_or, IfSome};
ghost use Rattle.std.specs.Option.{option_and_then};
ghost use Rattle.trex_sched.specs.Chain.{chain_of};
ghost use Rattle.trex_sched.specs.Entries.{run_entries, share};
ghost use Rattle.trex_sched.specs.Runs.{run_after, run_at, run_at_next, run_below, is_last_visit};
ghost use Rattle.trex_sched.specs.Times.{HasPackets, size};
ghost use Rattle.trex_sched.specs.Remaining.{IsMine, rest_of_run};

use crate::chain::ChainSpec;
use crate::run::Run;
use crate::slot::Slot;
use crate::times::{offset_below, packets_in, span_below};

/// The run of the leg at a place, where its gap begins at time `t`. None where there is no such leg or the run starts at the limit or later.
pub(crate) fn begin(chain: &ChainSpec, place: usize, visit: u64, t: u64, limit: u64) -> Option<Run>
    requires { t ≤ limit }
    ensures { result ≡ option_and_then (run_below limit) (run_at (chain_of chain.now) place visit t) }
{
    if place >= chain.legs.len() {
        return None;
    }
    let leg = chain.legs[place];
    if leg.isg >= limit - t {
        return None;
    }
    Some(Run {
        leg,
        place,
        visit,
        start: t + leg.isg,
    })
}

/// Whether the chain ends with this run, because its leg's action count is reached.
fn is_last_visit(run: &Run) -> bool
    requires { run.now.visit < 2 ^ 63 }
    ensures { result ≡ is_last_visit run.now }
{
    run.leg.actions != 0 && run.visit + 1 == u64::from(run.leg.actions)
}

/// The run after a run. None where the chain ends with it, or the next run starts at the duration or later.
pub(crate) fn next_run(chain: &ChainSpec, run: &Run, duration: u64) -> Option<Run>
    requires visit { run.now.visit < 2 ^ 63 }
    requires begun { run.now.start < duration }
    requires duration { duration ≤ 10 ^ 18 }
    ensures { result ≡ option_and_then (run_below duration) (run_after (chain_of chain.now) run.now) }
{
    if is_last_visit(run) {
        return None;
    }
    let lasts = span_below(&run.leg.period, &run.leg.mode, duration - run.start)?;
    follow(chain, run, run.start + lasts, duration)
}

/// The run after a run that ends at time `t`. None where no leg follows, or the next run starts at the duration or later.
fn follow(chain: &ChainSpec, run: &Run, t: u64, duration: u64) -> Option<Run>
    requires visit { run.now.visit < 2 ^ 63 }
    requires end { t ≤ duration }
    ensures { result ≡ option_and_then (run_below duration) (run_at_next (chain_of chain.now) run.now.place run.now.visit t) }
{
    // The first test keeps the sum of the second one from leaving its type.
    if run.place < chain.legs.len() && run.place + 1 < chain.legs.len() {
        return begin(chain, run.place + 1, run.visit, t, duration);
    }
    match chain.back {
        Some(back) => begin(chain, back as usize, run.visit + 1, t, duration),
        None => None,
    }
}

/// The least number of steps from a number to one that leaves the core's number as the remainder.
fn steps_to(number: u64, core: u64, cores: u64) -> u64
    requires core { core < cores }
    requires cores { cores ≤ 64 }
    ensures reached { (number + result) % cores ≡ core }
    ensures least { (step : ℕ) → step < result → ¬ ((number + step) % cores ≡ core) }
    ensures few { result < cores }
{
    let rest = number % cores;
    if rest <= core {
        core - rest
    } else {
        core + cores - rest
    }
}

/// The core's first packet of a run from packet `from` on. None where none is due below the duration.
pub(crate) fn next_in_run(
    run: &Run,
    core: u64,
    cores: u64,
    duration: u64,
    from: u64,
) -> Option<Slot>
    requires packets { HasPackets run.now.leg.mode }
    requires core { core < cores }
    requires cores { cores ≤ 64 }
    requires duration { duration ≤ 10 ^ 18 }
    requires begun { run.now.start < duration }
    requires before { run.now.visit * unwrap_or (size run.now.leg) 0 ≤ run.now.start }
    requires from { from ≤ 10 ^ 18 }
    ensures rest { share core cores (run_entries duration run.now from) ≡ rest_of_run core cores duration run.now result }
    ensures mine { IfSome result (IsMine core cores duration run.now) }
{
    let packets = packets_in(&run.leg.mode);
    let before = run.visit * packets.unwrap_or(0);
    let k = from + steps_to(before + from, core, cores);
    if k >= packets.unwrap_or(duration) {
        return None;
    }
    let after = offset_below(&run.leg.period, &run.leg.mode, k, duration - run.start)?;
    Some(Slot {
        time: run.start + after,
        stream: run.leg.stream,
        number: before + k,
        in_run: k,
    })
}
