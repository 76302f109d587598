// The chains: which streams start by themselves, and what a chain visits.

ghost use Rattle.std.specs.Prelude.{◌≡◌, ℕ, ◌≤◌, ◌<◌, All, length, map, Some, IfOk};
ghost use Rattle.trex_sched.specs.Chain.{chain_of};
ghost use Rattle.trex_profile.specs.Chains.{starts, chain_by, chains_of};
ghost use Rattle.trex_profile.specs.Links.{links};
ghost use Rattle.trex_profile.specs.Member.{member_stream};
ghost use Rattle.trex_profile.specs.Reached.{AreRising};
ghost use Rattle.trex_profile.specs.Visits.{link_at, round_of};

use crate::member::Member;
use indexmap::IndexSet;
use std::alloc::Global;
use trex_io::Memory;
use trex_sched::ChainSpec;

/// The positions of the streams that start by themselves.
fn collect_starts(alloc: Global, members: &[Member]) -> Result<Vec<u32>, Memory>
    requires { length members.now ≤ 4096 }
    ensures { IfOk result (λ all. all.items ≡ starts (map member_stream members.now)) }
{
    let mut all = Vec::new(alloc);
    for (at, member) in members.iter().enumerate() {
        if member.enabled && member.self_start {
            all.push(at as u32)?;
        }
    }
    Ok(all)
}

/// The same, and that they rise.
pub(crate) fn starts_of(alloc: Global, members: &[Member]) -> Result<Vec<u32>, Memory>
    requires { length members.now ≤ 4096 }
    ensures value { IfOk result (λ all. all.items ≡ starts (map member_stream members.now)) }
    ensures rising { IfOk result (λ all. AreRising (length members.now) 0 all.items) }
{
    let all = collect_starts(alloc, members)?;
    Ok(all)
}

/// The positions that a chain visits, and the place to which it comes back.
#[derive(Drop)]
struct Visited {
    order: Vec<u32>,
    back: Option<u32>,
}

/// What the chain that begins at a position visits.
fn visit(alloc: Global, links: &[Option<u32>], start: u32) -> Result<Visited, Memory>
    requires few { length links.now ≤ 4096 }
    requires within { (at next : ℕ) → link_at links.now at ≡ Some next → next < length links.now }
    requires start { start < length links.now }
    ensures value { IfOk result (λ v. record { order = v.order.items; back = v.back } ≡ round_of links.now start) }
    ensures within { IfOk result (λ v. All (λ at. at < length links.now) v.order.items) }
{
    let mut seen = IndexSet::new(alloc);
    let mut order = Vec::new(alloc);
    let mut at = start;
    for _step in 0..links.len() + 1 {
        if let Some(place) = seen.get_index_of(&at) {
            return Ok(Visited {
                order,
                back: Some(place as u32),
            });
        }
        seen.insert(at)?;
        order.push(at)?;
        match links[at as usize] {
            Some(next) => at = next,
            None => return Ok(Visited { order, back: None }),
        }
    }
    Ok(Visited { order, back: None })
}

/// The chain that visits streams.
fn chain_by(alloc: Global, members: &[Member], visited: &Visited) -> Result<ChainSpec, Memory>
    requires few { length members.now ≤ 4096 }
    requires within { All (λ at. at < length members.now) visited.now.order.items }
    ensures { IfOk result (λ chain. chain_of chain
        ≡ chain_by (map member_stream members.now) (record { order = visited.now.order.items; back = visited.now.back })) }
{
    let mut legs = Vec::new(alloc);
    for at in &visited.order {
        legs.push(members[*at as usize].leg(*at))?;
    }
    Ok(ChainSpec {
        legs,
        back: visited.back,
    })
}

/// One chain for each stream that starts by itself, in order of position.
pub(crate) fn chains_of(
    alloc: Global,
    members: &[Member],
    nexts: &[Option<u32>],
    firsts: &[u32],
) -> Result<Vec<ChainSpec>, Memory>
    requires few { length members.now ≤ 4096 }
    requires nexts { nexts.now ≡ links (map member_stream members.now) }
    requires within { (at next : ℕ) → link_at nexts.now at ≡ Some next → next < length nexts.now }
    requires same { length nexts.now ≡ length members.now }
    requires firsts { firsts.now ≡ starts (map member_stream members.now) }
    requires rising { AreRising (length nexts.now) 0 firsts.now }
    ensures { IfOk result (λ chains. map chain_of chains.items ≡ chains_of (map member_stream members.now)) }
{
    let mut chains = Vec::new(alloc);
    for start in firsts {
        let visited = visit(alloc, nexts, *start)?;
        chains.push(chain_by(alloc, members, &visited)?)?;
    }
    Ok(chains)
}
