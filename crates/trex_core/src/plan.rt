// What a run sends, and the packets of each core.

ghost use Rattle.std.specs.Prelude.{◌≡◌, ◌+◌, ◌*◌, ◌<◌, ◌≤◌, ◌^◌, IfOk, IsSomeAnd, length, map, slice_get};
ghost use Rattle.std.specs.List.{AllByRecursion};
ghost use Rattle.trex_core.specs.Plan.{IsSlotOf, frame_at, frames_of_plan};
ghost use Rattle.trex_merge.specs.Frames.{share};
ghost use Rattle.trex_profile.specs.Spec.{IsSpecOf};

use std::alloc::Global;
use std::marker::Model;
use trex_io::Memory;
use trex_merge::order_is_unique;
use trex_profile::{Profile, StreamSpec, profiles_can_be_walked};
use trex_sched::{Slot, Walks, chains_are_apart, entries_rise};

const NANOSECONDS_PER_SECOND: u64 = 1_000_000_000;

/// What a run sends: the packets of a profile that stand below a duration, with times that count from a base. It takes no memory.
#[derive(Drop)]
pub struct Plan<'p> {
    profile: &'p Profile,
    duration: u64,
    base: u32,
}

impl<'p> Model for Plan<'p> {
    ghost use Rattle.std.specs.Prelude.{◌*◌, ◌≤◌, ◌^◌};
    ghost use Rattle.trex_core.specs.Plan.{PlanOf};

    ghost Value = { PlanOf };

    ghost view = { λ p. record { profile = p.profile.now; duration = p.duration; base = p.base } };

    ghost invariant = { λ p. (p.duration ≤ 10 ^ 18) × (p.base ≤ 3000000000) };
}

impl<'p> Plan<'p> {
    /// The plan of a profile for a duration in nanoseconds, whose base is in seconds since 1970.
    pub fn new(profile: &'p Profile, duration: u64, base: u32) -> Plan<'p>
        requires duration { duration ≤ 10 ^ 18 }
        requires base { base ≤ 3000000000 }
        ensures { result ≡ record { profile = profile.now; duration = duration; base = base } }
    {
        Plan {
            profile,
            duration,
            base,
        }
    }

    /// The packets of core `core` of `cores`, before the first. The memory for all of them is taken here.
    pub(crate) fn walks(&self, alloc: Global, core: u32, cores: u32) -> Result<Walks<'p>, Memory>
        requires core { core < cores }
        requires cores { cores ≤ 64 }
        ensures share { IfOk result (λ walks.
            map (frame_at self.now.profile self.now.base) walks ≡ share core cores (frames_of_plan self.now)) }
        ensures slots { IfOk result (AllByRecursion (IsSlotOf self.now.profile)) }
    {
        chains_are_apart();
        entries_rise();
        order_is_unique::<Slot>();
        profiles_can_be_walked();
        let walks = Walks::start(alloc, self.profile.chains(), core, cores, self.duration)?;
        Ok(walks)
    }

    /// The base, in seconds since 1970.
    pub(crate) fn base(&self) -> u32
        ensures value { result ≡ self.now.base }
        ensures small { result ≤ 3000000000 }
    {
        self.base
    }

    /// The number of streams.
    pub(crate) fn streams(&self) -> usize
        ensures { result ≡ length self.now.profile }
    {
        self.profile.len()
    }

    /// What the packets of the stream at a position are made of.
    pub(crate) fn stream(&self, i: usize) -> &'p StreamSpec
        requires { i < length self.now.profile }
        ensures { IsSomeAnd (slice_get self.now.profile i) (λ stream. IsSpecOf stream result.now) }
    {
        self.profile.stream(i)
    }

    /// The absolute time of a packet, in nanoseconds since 1970.
    pub(crate) fn time_of(&self, slot: &Slot) -> u64
        requires { slot.now.time < 10 ^ 18 }
        ensures { result ≡ self.now.base * 10 ^ 9 + slot.now.time }
    {
        u64::from(self.base) * NANOSECONDS_PER_SECOND + slot.time
    }
}
