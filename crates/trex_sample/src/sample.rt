// The profile of a sample.

ghost use Rattle.std.specs.Prelude.{◌≡◌, ◌≤◌, IfOk, map};
ghost use Rattle.trex_profile.specs.Admission.{IsRawProfile};
ghost use Rattle.trex_profile.specs.Stream.{raw_stream};
ghost use Rattle.trex_sample.specs.Sampled.{sampled};

use crate::stream::sampled_stream;
use std::alloc::Global;
use trex_io::Memory;
use trex_profile::{AdmitFault, Profile, RawProfile, admit};

/// What the sample says, before its rules are looked at.
fn raw_sample(alloc: Global, seed: u64, streams: u32) -> Result<RawProfile, Memory>
    requires { streams ≤ 256 }
    ensures value { IfOk result (λ raw. map raw_stream raw.streams.items ≡ sampled seed streams) }
    ensures ranges { IfOk result IsRawProfile }
{
    let mut all = Vec::with_capacity(alloc, streams as usize)?;
    for position in 0..streams {
        all.push(sampled_stream(alloc, seed, position)?)?;
    }
    Ok(RawProfile { streams: all })
}

/// The profile of so many streams that a seed determines. It breaks no rule, so want of memory is the only error.
pub fn sample_profile(alloc: Global, seed: u64, streams: u32) -> Result<Profile, Memory>
    requires some { 1 ≤ streams }
    requires few { streams ≤ 256 }
    ensures { IfOk result (λ profile. profile ≡ sampled seed streams) }
{
    let raw = raw_sample(alloc, seed, streams)?;
    match admit(alloc, raw) {
        Ok(profile) => Ok(profile),
        Err(AdmitFault::Memory) => Err(Memory),
        Err(AdmitFault::Refused(_)) => unreachable!(),
    }
}
