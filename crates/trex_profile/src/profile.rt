// An admitted profile: its streams and their chains.

use crate::chains::visits::chains_of;
use crate::member::{Member, StreamSpec};
use crate::rules::cross::Following;
use std::alloc::Global;
use std::marker::Model;
use trex_io::Memory;
use trex_layers::LONGEST_PACKET;
use trex_sched::ChainSpec;

/// A profile that keeps all rules. Contracts see it as the list of its streams.
#[derive(Drop)]
pub struct Profile {
    members: Vec<Member>,
    chains: Vec<ChainSpec>,
}

impl Model for Profile {
    ghost use Rattle.std.specs.Prelude.{◌≡◌, List, map, All, None};
    ghost use Rattle.trex_sched.specs.Chain.{chain_of};
    ghost use Rattle.trex_profile.specs.Admission.{refusal_of};
    ghost use Rattle.trex_profile.specs.Chains.{chains_of};
    ghost use Rattle.trex_profile.specs.Member.{member_stream, IsMember};
    ghost use Rattle.trex_profile.specs.Stream.{Stream};

    ghost Value = { List Stream };

    ghost view = { λ p. map member_stream p.members.items };

    ghost invariant = { λ p. (refusal_of (map member_stream p.members.items) ≡ None)
        × (map chain_of p.chains.items ≡ chains_of (map member_stream p.members.items))
        × All IsMember p.members.items };
}

impl Profile {
    ghost use Rattle.std.specs.Prelude.{◌≡◌, ℕ, ◌≤◌, ◌<◌, ◌↔◌, [], length, map, All, None, Some, IsTrue, IfOk, IfSome, IsSomeAnd, slice_get};
    ghost use Rattle.std.specs.List.{AllByRecursion};
    ghost use Rattle.trex_sched.specs.Chain.{chain_of, IsChain};
    ghost use Rattle.trex_sched.specs.Walks.{HaveDistinctStreams};
    ghost use Rattle.trex_profile.specs.Admission.{refusal_of};
    ghost use Rattle.trex_profile.specs.Chains.{starts, chains_of};
    ghost use Rattle.trex_profile.specs.Flow.{IsFlow};
    ghost use Rattle.trex_profile.specs.Links.{links};
    ghost use Rattle.trex_profile.specs.Member.{member_stream, IsMember};
    ghost use Rattle.trex_profile.specs.Packets.{EndsInStamp, packet_of};
    ghost use Rattle.trex_profile.specs.Reached.{AreRising};
    ghost use Rattle.trex_profile.specs.Spec.{IsSpecOf};
    ghost use Rattle.trex_profile.specs.Visits.{link_at};

    pub(crate) fn new(
        alloc: Global,
        members: Vec<Member>,
        following: &Following,
    ) -> Result<Profile, Memory>
        requires few { length members.items ≤ 4096 }
        requires kept { refusal_of (map member_stream members.items) ≡ None }
        requires specs { All IsMember members.items }
        requires links { following.now.links.items ≡ links (map member_stream members.items) }
        requires same { length following.now.links.items ≡ length members.items }
        requires within { (at next : ℕ) → link_at following.now.links.items at ≡ Some next → next < length following.now.links.items }
        requires starts { following.now.starts.items ≡ starts (map member_stream members.items) }
        requires rising { AreRising (length following.now.links.items) 0 following.now.starts.items }
        ensures { IfOk result (λ profile. profile ≡ map member_stream members.items) }
    {
        let chains = chains_of(alloc, &members, &following.links, &following.starts)?;
        Ok(Profile { members, chains })
    }

    /// The number of streams.
    pub fn len(&self) -> usize
        ensures value { result ≡ length self.now }
        // A profile keeps the rules, and no packet is longer than the longest.
        ensures kept { refusal_of self.now ≡ None }
        ensures short { AllByRecursion (λ s. (number place time : ℕ) → length (packet_of s number place time) ≤ LONGEST_PACKET) self.now }
        // Each packet of a stream that has a flow ends in its latency header, and the flow fits its version.
        ensures stamped { AllByRecursion EndsInStamp self.now }
        ensures flows { AllByRecursion (λ s. IfSome s.flow IsFlow) self.now }
    {
        self.members.len()
    }

    /// Whether there are no streams.
    pub fn is_empty(&self) -> bool
        ensures { IsTrue result ↔ (self.now ≡ []) }
    {
        self.members.is_empty()
    }

    /// What the packets of the stream at a position are made of.
    pub fn stream(&self, i: usize) -> &StreamSpec
        requires { i < length self.now }
        ensures { IsSomeAnd (slice_get self.now i) (λ stream. IsSpecOf stream result.now) }
    {
        &self.members[i].spec
    }

    /// One chain for each stream that starts by itself, in order of position.
    pub fn chains(&self) -> &[ChainSpec]
        ensures chains { map chain_of result.now ≡ chains_of self.now }
        // They can be walked together.
        ensures walkable { AllByRecursion IsChain (map chain_of result.now) }
        ensures distinct { HaveDistinctStreams (map chain_of result.now) }
    {
        &self.chains
    }
}
