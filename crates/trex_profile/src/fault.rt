// Why a profile, or one stream of it, is not taken.

use crate::refusal::{Breach, Refusal};
use crate::rule::Rule;
use std::alloc::AllocFailed;
use trex_io::Memory;

/// The first rule that is broken, with its place, or no memory.
#[derive(Clone, Copy, Debug, PartialEq, Eq)]
pub enum Fault<R> {
    /// The first broken rule.
    Refused(R),
    /// There was no memory.
    Memory,
}

/// Why a profile isn't admitted.
pub type AdmitFault = Fault<Refusal>;

/// Why one stream of a profile isn't taken.
pub type StreamFault = Fault<Breach>;

impl Fault<Breach> {
    ghost use Rattle.std.specs.Prelude.{◌≡◌};
    ghost use Rattle.trex_profile.specs.declared.fault.Fault.TheVariants.{Refused as IsRefused};
    ghost use Rattle.trex_profile.specs.Answer.{fault_at};
    ghost use Rattle.trex_profile.specs.Refusal.{whole_stream, at_place};

    /// A rule about the stream as a whole.
    pub fn of_stream(rule: Rule) -> StreamFault
        ensures { result ≡ IsRefused (whole_stream rule) }
    {
        Fault::Refused(Breach::of_stream(rule))
    }

    /// A rule at an instruction or a layer.
    pub fn at_place(at: u32, rule: Rule) -> StreamFault
        ensures { result ≡ IsRefused (at_place at rule) }
    {
        Fault::Refused(Breach::at_place(at, rule))
    }

    /// The fault of the profile that has the stream at a position.
    pub fn in_stream(self, position: u32) -> AdmitFault
        ensures { result ≡ fault_at position self }
    {
        match self {
            Fault::Refused(breach) => Fault::Refused(breach.in_stream(position)),
            Fault::Memory => Fault::Memory,
        }
    }
}

impl<R> From<Memory> for Fault<R> {
    ghost use Rattle.std.specs.Prelude.{◌≡◌};
    ghost use Rattle.trex_profile.specs.declared.fault.Fault.TheVariants.{Memory as OutOfMemory};

    ghost from_gives = { λ _ fault. fault ≡ OutOfMemory };

    fn from(_memory: Memory) -> Fault<R> {
        Fault::Memory
    }
}

impl<R, T: Drop> From<AllocFailed<T>> for Fault<R> {
    ghost use Rattle.std.specs.Prelude.{◌≡◌};
    ghost use Rattle.trex_profile.specs.declared.fault.Fault.TheVariants.{Memory as OutOfMemory};

    ghost from_gives = { λ _ fault. fault ≡ OutOfMemory };

    fn from(_failed: AllocFailed<T>) -> Fault<R> {
        Fault::Memory
    }
}
