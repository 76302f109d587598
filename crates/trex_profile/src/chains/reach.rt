// From which streams that start by themselves each stream is reached.

ghost use Rattle.std.specs.Prelude.{◌≡◌, ◌≢◌, ◌⊎◌, ℕ, ◌≤◌, ◌<◌, length, map, Some, IfOk, MatchOption, if◌then◌else◌};
ghost use Rattle.trex_profile.specs.Visits.{link_at, comes_to};
ghost use Rattle.trex_profile.specs.Reached.{noted, with_start, IsClosed, AreReached, AreRising};
ghost use Rattle.trex_profile.specs.Cross.{shared_refusal};
ghost use Rattle.trex_profile.specs.Member.{member_stream};
ghost use Rattle.trex_profile.specs.Order.{first_each};

use crate::member::Member;
use crate::refusal::{Breach, Refusal};
use crate::rule::Rule;
use std::alloc::Global;
use trex_io::Memory;

/// From which streams that start by themselves a stream is reached.
#[derive(Clone, Copy, Debug, PartialEq, Eq)]
pub(crate) enum Reach {
    Nowhere,
    From(u32),
    Shared,
}

/// What is noted of a position with one more start, or nothing where the chain need go no further.
fn noted_with(here: Reach, start: u32) -> Option<Reach>
    ensures { MatchOption result ((here ≡ Reach.From start) ⊎ (here ≡ Reach.Shared))
        (λ further. (with_start start here ≡ further) × (here ≢ Reach.From start) × (here ≢ Reach.Shared)) }
{
    match here {
        Reach::Nowhere => Some(Reach::From(start)),
        Reach::From(other) => {
            if other == start {
                None
            } else {
                Some(Reach::Shared)
            }
        }
        Reach::Shared => None,
    }
}

/// Notes what the chain that begins at a position comes to. It ends early where this is known: at a position that it came
/// to before, and at one that several starts reach, as they reach all that follows it.
fn note(reach: &mut [Reach], links: &[Option<u32>], start: u32)
    requires few { length links.now ≤ 4096 }
    requires same { length reach.old ≡ length links.now }
    requires within { (at next : ℕ) → link_at links.now at ≡ Some next → next < length links.now }
    requires start { start < length links.now }
    requires closed { IsClosed links.now reach.old }
    requires new { (at : ℕ) → at < length links.now → noted reach.old at ≢ Reach.From start }
    ensures same { length reach.new ≡ length reach.old }
    ensures noted { (at : ℕ) → at < length links.now → noted reach.new at
        ≡ (if comes_to links.now at start then with_start start (noted reach.old at) else noted reach.old at) }
{
    let mut at = start;
    for _step in 0..links.len() + 1 {
        match noted_with(reach[at as usize], start) {
            None => return,
            Some(further) => reach[at as usize] = further,
        }
        match links[at as usize] {
            Some(next) => at = next,
            None => return,
        }
    }
}

/// From which starts each position is reached.
pub(crate) fn reaches(
    alloc: Global,
    links: &[Option<u32>],
    starts: &[u32],
) -> Result<Vec<Reach>, Memory>
    requires few { length links.now ≤ 4096 }
    requires within { (at next : ℕ) → link_at links.now at ≡ Some next → next < length links.now }
    requires rising { AreRising (length links.now) 0 starts.now }
    ensures { IfOk result (λ all. AreReached links.now starts.now all.items) }
{
    let mut all = vec![in alloc; Reach::Nowhere; links.len()]?;
    for start in starts {
        note(&mut all, links, *start);
    }
    Ok(all)
}

/// The refusal of the first stream that several starts reach.
pub(crate) fn first_shared(
    members: &[Member],
    links: &[Option<u32>],
    starts: &[u32],
    reach: &[Reach],
) -> Option<Refusal>
    requires few { length members.now ≤ 4096 }
    requires same { length links.now ≡ length members.now }
    requires reached { AreReached links.now starts.now reach.now }
    ensures { result ≡ first_each (shared_refusal links.now starts.now) 0 (map member_stream members.now) }
{
    for at in 0..members.len() {
        if let Reach::Shared = reach[at] {
            return Some(Breach::of_stream(Rule::SharedStream).in_stream(at as u32));
        }
    }
    None
}
