// The ids of streams, and which stream follows which.

ghost use Rattle.std.specs.Prelude.{◌≡◌, ℕ, ◌≤◌, ◌<◌, map, length, IfOk, Some, None, Err};
ghost use Rattle.trex_profile.specs.declared.fault.Fault.TheVariants.{Refused as IsRefused};
ghost use Rattle.trex_profile.specs.Cross.{duplicate_refusal, lost_refusal, is_lost};
ghost use Rattle.trex_profile.specs.Links.{ids, is_endless, effective_next, links};
ghost use Rattle.trex_profile.specs.Member.{member_stream};
ghost use Rattle.trex_profile.specs.Order.{first_each};
ghost use Rattle.trex_profile.specs.Visits.{IsLink, link_at};

use crate::fault::AdmitFault;
use crate::member::Member;
use crate::refusal::{Breach, Refusal};
use crate::rule::Rule;
use indexmap::IndexSet;
use std::alloc::Global;
use trex_io::Memory;
use trex_sched::Mode;

/// The ids of the streams, in order, or the refusal of a stream whose id an earlier one has.
pub(crate) fn index_ids(alloc: Global, members: &[Member]) -> Result<IndexSet<u32>, AdmitFault>
    requires { length members.now ≤ 4096 }
    ensures kept { IfOk result (λ found. found.keys ≡ ids (map member_stream members.now)) }
    ensures passed { IfOk result (λ found. first_each (duplicate_refusal (ids (map member_stream members.now))) 0 (map member_stream members.now) ≡ None) }
    ensures refused { (refusal : Refusal) → result ≡ Err (IsRefused refusal)
        → first_each (duplicate_refusal (ids (map member_stream members.now))) 0 (map member_stream members.now) ≡ Some refusal }
{
    let mut found = IndexSet::new(alloc);
    for (at, member) in members.iter().enumerate() {
        let (_, is_new) = found.insert_full(member.spec.id)?;
        if !is_new {
            return Err(AdmitFault::Refused(Breach::of_stream(Rule::DuplicateId).in_stream(
                at as u32,
            )));
        }
    }
    Ok(found)
}

/// Whether no stream has the id of the next one.
fn is_lost(found: &IndexSet<u32>, next: Option<u32>) -> bool
    ensures { result ≡ is_lost found.now.keys next }
{
    match next {
        None => false,
        Some(id) => found.get_index_of(&id).is_none(),
    }
}

/// The refusal of the first stream whose next one is no stream.
pub(crate) fn first_lost(members: &[Member], found: &IndexSet<u32>) -> Option<Refusal>
    requires few { length members.now ≤ 4096 }
    ensures { result ≡ first_each (lost_refusal found.now.keys) 0 (map member_stream members.now) }
{
    for (at, member) in members.iter().enumerate() {
        if is_lost(found, member.next) {
            return Some(Breach::of_stream(Rule::NoSuchStream).in_stream(at as u32));
        }
    }
    None
}

/// Whether a run of the mode has no end.
fn is_endless(mode: Mode) -> bool
    ensures { result ≡ is_endless mode }
{
    match mode {
        Mode::Continuous => true,
        Mode::SingleBurst { .. } => false,
        Mode::MultiBurst { count, .. } => count == 0,
    }
}

/// The position of the effective next stream, where there is one.
fn effective_next(members: &[Member], found: &IndexSet<u32>, member: &Member) -> Option<u32>
    requires few { length members.now ≤ 4096 }
    requires found { found.now.keys ≡ ids (map member_stream members.now) }
    ensures value { result ≡ effective_next (map member_stream members.now) (member_stream member.now) }
    ensures within { IsLink (length members.now) result }
{
    if is_endless(member.mode) {
        return None;
    }
    let next = found.get_index_of(&member.next?)?;
    if members[next].enabled {
        Some(next as u32)
    } else {
        None
    }
}

/// The effective next stream of each.
pub(crate) fn links_of(
    alloc: Global,
    members: &[Member],
    found: &IndexSet<u32>,
) -> Result<Vec<Option<u32>>, Memory>
    requires few { length members.now ≤ 4096 }
    requires found { found.now.keys ≡ ids (map member_stream members.now) }
    ensures value { IfOk result (λ all. all.items ≡ links (map member_stream members.now)) }
    ensures within { IfOk result (λ all. (at next : ℕ) → link_at all.items at ≡ Some next → next < length all.items) }
    ensures same { IfOk result (λ all. length all.items ≡ length members.now) }
{
    let mut all = Vec::new(alloc);
    for member in members {
        all.push(effective_next(members, found, member))?;
    }
    Ok(all)
}
