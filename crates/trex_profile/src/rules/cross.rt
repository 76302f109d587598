// The rules over several streams, in their order.

ghost use Rattle.std.specs.Prelude.{◌≡◌, ℕ, ◌≤◌, ◌<◌, length, map, None, Some, Err, IfOk, OnOk};
ghost use Rattle.trex_profile.specs.declared.fault.Fault.TheVariants.{Refused as IsRefused};
ghost use Rattle.trex_profile.specs.Chains.{starts};
ghost use Rattle.trex_profile.specs.Cross.{cross_rules};
ghost use Rattle.trex_profile.specs.Links.{links};
ghost use Rattle.trex_profile.specs.Member.{member_stream};
ghost use Rattle.trex_profile.specs.Reached.{AreRising};
ghost use Rattle.trex_profile.specs.Visits.{link_at};

use crate::chains::links::{first_lost, index_ids, links_of};
use crate::chains::reach::{first_shared, reaches};
use crate::chains::visits::starts_of;
use crate::fault::AdmitFault;
use crate::member::Member;
use crate::refusal::Refusal;
use crate::rules::flows::differ_in_flows;
use std::alloc::Global;

/// How the streams follow one another, by their positions.
#[derive(Drop)]
pub(crate) struct Following {
    /// The effective next stream of each.
    pub(crate) links: Vec<Option<u32>>,
    /// Those that start by themselves.
    pub(crate) starts: Vec<u32>,
}

/// How the streams follow one another, or the first rule over several streams that is broken.
#[tactic(auto, unfolding(crate::specs::Cross::cross_rules))]
pub(crate) fn follow(alloc: Global, members: &[Member]) -> Result<Following, AdmitFault>
    requires { length members.now ≤ 4096 }
    ensures kept { OnOk result (cross_rules (map member_stream members.now) ≡ None) }
    ensures refused { (refusal : Refusal) → result ≡ Err (IsRefused refusal) → cross_rules (map member_stream members.now) ≡ Some refusal }
    ensures links { IfOk result (λ f. f.links.items ≡ links (map member_stream members.now)) }
    ensures same { IfOk result (λ f. length f.links.items ≡ length members.now) }
    ensures within { IfOk result (λ f. (at next : ℕ) → link_at f.links.items at ≡ Some next → next < length f.links.items) }
    ensures starts { IfOk result (λ f. f.starts.items ≡ starts (map member_stream members.now)) }
    ensures rising { IfOk result (λ f. AreRising (length f.links.items) 0 f.starts.items) }
{
    let found = index_ids(alloc, members)?;
    if let Some(refusal) = first_lost(members, &found) {
        return Err(AdmitFault::Refused(refusal));
    }
    let links = links_of(alloc, members, &found)?;
    let starts = starts_of(alloc, members)?;
    let reach = reaches(alloc, &links, &starts)?;
    if let Some(refusal) = first_shared(members, &links, &starts, &reach) {
        return Err(AdmitFault::Refused(refusal));
    }
    differ_in_flows(alloc, members)?;
    Ok(Following { links, starts })
}
