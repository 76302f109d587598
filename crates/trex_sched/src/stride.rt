// The packets of one burst by strides: a core's next packet is as many packets further as there are cores, and its time is a sum.

ghost use Rattle.std.specs.Prelude.{◌≡◌, ◌+◌, ◌^◌, ◌<◌, ◌≤◌, ℕ, IfSome, OnSome, Some};
ghost use Rattle.trex_sched.specs.Entries.{slot_of};
ghost use Rattle.trex_sched.specs.Strides.{AreInBurst, IsAtStride};
ghost use Rattle.trex_sched.specs.Times.{HasPackets, size};

use crate::chain::Leg;
use crate::mode::Mode;
use crate::period::Split;
use crate::run::Run;
use crate::slot::Slot;

/// Where a packet of a run stands in its burst.
#[derive(Clone, Copy)]
struct Place {
    /// The packet's number in the burst, from 0.
    burst: u64,
    /// How many packets of the burst come after it.
    left: u64,
}

/// A core's way through a burst, from the packet at which its walk stands.
#[derive(Clone, Copy)]
pub(crate) struct Stride {
    /// When the burst begins, in nanoseconds from the schedule's zero.
    start: u64,
    /// How many packets of the burst come after the one at which the walk stands.
    left: u64,
    /// The time of the packet at which the walk stands, from the burst's start.
    place: Split,
    /// The time of as many packets as there are cores.
    step: Split,
}

/// Where packet `k` of a leg's run stands in its burst.
fn place_of(leg: &Leg, k: u64) -> Place
    requires packets { HasPackets leg.now.mode }
    requires within { (n : ℕ) → size leg.now ≡ Some n → k < n }
    ensures { AreInBurst leg.now k result.burst result.left }
{
    match leg.mode {
        Mode::Continuous => Place {
            burst: k,
            left: u64::MAX,
        },
        Mode::SingleBurst { total } => Place {
            burst: k,
            left: u64::from(total) - 1 - k,
        },
        Mode::MultiBurst {
            per_burst,
            ibg: _,
            count: _,
        } => {
            let per_burst = u64::from(per_burst);
            let burst = k % per_burst;
            Place {
                burst,
                left: per_burst - 1 - burst,
            }
        }
    }
}

/// The stride from a packet of a run. None where its core has no later packet in the burst.
pub(crate) fn stride_from(run: &Run, cores: u64, slot: &Slot) -> Option<Stride>
    requires packets { HasPackets run.now.leg.mode }
    requires within { (n : ℕ) → size run.now.leg ≡ Some n → slot.now.in_run < n }
    requires is { slot.now ≡ slot_of run.now slot.now.in_run }
    requires early { slot.now.time < 10 ^ 18 }
    requires cores { cores ≤ 64 }
    ensures { IsAtStride run.now.leg run.now.start cores slot.now.in_run result }
{
    let period = &run.leg.period;
    let place = place_of(&run.leg, slot.in_run);
    if place.left < cores {
        return None;
    }
    let after = period.split(place.burst);
    Some(Stride {
        start: slot.time - after.whole as u64,
        left: place.left,
        place: after,
        step: period.split(cores),
    })
}

/// The core's next packet of the same burst. None where the burst has none that is due below the duration.
pub(crate) fn next_by_stride(
    run: &Run,
    cores: u64,
    duration: u64,
    slot: &Slot,
    stride: &mut Option<Stride>,
) -> Option<Slot>
    requires cores { cores ≤ 64 }
    requires duration { duration ≤ 10 ^ 18 }
    requires is { slot.now ≡ slot_of run.now slot.now.in_run }
    requires early { slot.now.time < duration }
    requires number { slot.now.number < 2 ^ 63 }
    requires stride { IsAtStride run.now.leg run.now.start cores slot.now.in_run stride.old }
    ensures is { IfSome result (λ later. later ≡ slot_of run.now (slot.now.in_run + cores)) }
    ensures early { IfSome result (λ later. later.time < duration) }
    ensures within { IfSome result (λ later. (n : ℕ) → size run.now.leg ≡ Some n → later.in_run < n) }
    ensures stride { OnSome result (IsAtStride run.now.leg run.now.start cores (slot.now.in_run + cores) stride.new) }
{
    let stride = stride.as_mut()?;
    if stride.left < cores {
        return None;
    }
    let place = run.leg.period.later(stride.place, stride.step);
    let time = u128::from(stride.start) + place.whole;
    if time >= u128::from(duration) {
        return None;
    }
    stride.left -= cores;
    stride.place = place;
    Some(Slot {
        time: time as u64,
        stream: slot.stream,
        number: slot.number + cores,
        in_run: slot.in_run + cores,
    })
}
