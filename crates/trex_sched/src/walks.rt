// The walks of many chains at once.

ghost use Rattle.std.specs.Prelude.{◌≡◌, ◌<◌, ◌≤◌, ◌^◌, [], ◌∷◌, ◌++◌, IfOk, OnOk, Some, drop, map, slice_get, slice_index_or, slice_set, vec_len};
ghost use Rattle.std.specs.BinaryHeap.{IsHeap, heap_items, heap_len};
ghost use Rattle.std.specs.List.{AllByRecursion};
ghost use Rattle.std.specs.List.Sorted.{IsPermutation};
ghost use Rattle.trex_merge.specs.Order.{ordered};
ghost use Rattle.trex_sched.specs.Chain.{chain_of, IsChain};
ghost use Rattle.trex_sched.specs.Entries.{key_of, share};
ghost use Rattle.trex_sched.specs.Heads.{AreHeads, IsFirst, compare_heads, least_first, with_first};
ghost use Rattle.trex_sched.specs.Walks.{HaveDistinctStreams, all_entries};

use crate::head::Head;
use crate::{ChainSpec, Slot, Walk, entries_rise};
use std::alloc::Global;
use std::cmp::Reverse;
use std::collections::BinaryHeap;
use std::marker::Model;
use trex_io::Memory;
use trex_merge::{least_goes_first, order_is_unique};

/// The packets of many chains that one core has still to send, in order: by time, then by stream, then by number.
#[derive(Drop)]
pub struct Walks<'p> {
    walks: Vec<Walk<'p>>,
    /// The least head, where a walk has a packet.
    first: Option<Head>,
    /// One for each other walk that has a packet.
    others: BinaryHeap<Reverse<Head>>,
}

impl<'p> Model for Walks<'p> {
    ghost use Rattle.std.specs.Prelude.{List};
    ghost use Rattle.std.specs.BinaryHeap.{heap_items};
    ghost use Rattle.trex_merge.specs.Order.{joined, ordered};
    ghost use Rattle.trex_sched.specs.declared.slot.Slot.{Slot};
    ghost use Rattle.trex_sched.specs.Entries.{key_of};
    ghost use Rattle.trex_sched.specs.Heads.{AreInOrder};

    ghost Value = { List Slot };

    ghost view = { λ w. ordered key_of (joined w.walks.items) };

    ghost invariant = { λ w. AreInOrder w.walks.items w.first (heap_items w.others) };
}

impl<'p> Walks<'p> {
    /// The packets of some chains below the duration, in nanoseconds, that core `core` of `cores` sends: those whose numbers leave
    /// `core` as the remainder. The memory for all of them is taken here.
    pub fn start(
        alloc: Global,
        chains: &'p [ChainSpec],
        core: u32,
        cores: u32,
        duration: u64,
    ) -> Result<Walks<'p>, Memory>
        requires chains { AllByRecursion IsChain (map chain_of chains.now) }
        requires streams { HaveDistinctStreams (map chain_of chains.now) }
        requires core { core < cores }
        requires cores { cores ≤ 64 }
        requires duration { duration ≤ 10 ^ 18 }
        ensures { IfOk result
            (λ w. w ≡ share core cores (ordered key_of (all_entries (map chain_of chains.now) duration))) }
    {
        // For the proof that the walks rise and are apart, and so have one order.
        entries_rise();
        order_is_unique::<Slot>();
        let mut walks = Vec::with_capacity(alloc, chains.len())?;
        let mut heads = BinaryHeap::with_capacity(alloc, chains.len())?;
        for chain in chains {
            // For the proof that a place has 32 bits: each chain begins with a stream of its own.
            let _stream = chain.legs[0].stream;
            let walk = Walk::start(chain, core, cores, duration);
            add(&mut walks, &mut heads, walk)?;
        }
        let first = take_least(&mut heads);
        Ok(Walks {
            walks,
            first,
            others: heads,
        })
    }

    /// The next packet, which stays.
    pub fn peek(&self) -> Option<Slot>
        ensures { result ≡ slice_get self.now 0 }
    {
        // For the proof that the least head is the first of all packets.
        least_goes_first::<Slot>();
        let head = self.first?;
        let walk = &self.walks[head.place as usize];
        walk.peek()
    }

    /// The next packet, which is passed. No memory is taken.
    pub fn next(&mut self) -> Option<Slot>
        ensures slot { result ≡ slice_get self.old 0 }
        ensures rest { self.new ≡ drop 1 self.old }
    {
        // For the proof that the least head is the first of all packets, and that the others still rise.
        least_goes_first::<Slot>();
        let head = self.first?;
        take_next(
            &mut self.walks,
            &mut self.first,
            &mut self.others,
            head.place,
        )
    }
}

/// Adds a walk, with its head if it has a packet.
fn add<'p>(
    walks: &mut Vec<Walk<'p>>,
    heads: &mut BinaryHeap<Reverse<Head>>,
    walk: Walk<'p>,
) -> Result<(), Memory>
    requires few { vec_len walks.old < 2 ^ 32 }
    requires known { AreHeads walks.old.items (heap_items heads.old) }
    requires heap { IsHeap least_first (heap_items heads.old) }
    ensures walks { OnOk result (walks.new.items ≡ walks.old.items ++ walk.entry ∷ []) }
    ensures known { OnOk result (AreHeads walks.new.items (heap_items heads.new)) }
    ensures heap { OnOk result (IsHeap least_first (heap_items heads.new)) }
{
    if let Some(slot) = walk.peek() {
        heads.push(Reverse(Head::new(&slot, walks.len() as u32)))?;
    }
    walks.push(walk)?;
    Ok(())
}

/// Passes the next packet of the walk at a place, and answers it. The least of the other walks' heads and of this one's, where it has a
/// further packet, is the first one then.
fn take_next(
    walks: &mut Vec<Walk>,
    first: &mut Option<Head>,
    others: &mut BinaryHeap<Reverse<Head>>,
    place: u32,
) -> Option<Slot>
    requires place { place < vec_len walks.old }
    requires others { AreHeads (slice_set walks.old.items place []) (heap_items others.old) }
    requires heap { IsHeap least_first (heap_items others.old) }
    ensures slot { result ≡ slice_get (slice_index_or walks.old.items place []) 0 }
    ensures walks { walks.new.items ≡ slice_set walks.old.items place (drop 1 (slice_index_or walks.old.items place [])) }
    ensures known { AreHeads walks.new.items (with_first first.new (heap_items others.new)) }
    ensures least { IsFirst first.new (heap_items others.new) }
    ensures heap { IsHeap least_first (heap_items others.new) }
{
    let walk = &mut walks[place as usize];
    let slot = walk.peek();
    if slot.is_some() {
        walk.advance();
    }
    match walk.peek() {
        Some(next) => *first = Some(take_lesser(others, Head::new(&next, place))),
        None => *first = take_least(others),
    }
    slot
}

/// Takes the least head out of a heap.
fn take_least(heads: &mut BinaryHeap<Reverse<Head>>) -> Option<Head>
    requires heap { IsHeap least_first (heap_items heads.old) }
    ensures heads { IsPermutation (heap_items heads.old) (with_first result (heap_items heads.new)) }
    ensures least { IsFirst result (heap_items heads.new) }
    ensures heap { IsHeap least_first (heap_items heads.new) }
{
    let Reverse(head) = heads.pop()?;
    Some(head)
}

/// The lesser of a head and the least one of a heap. The other one stays in the heap.
fn take_lesser(others: &mut BinaryHeap<Reverse<Head>>, head: Head) -> Head
    requires heap { IsHeap least_first (heap_items others.old) }
    ensures heads { IsPermutation (record { 0 = head } ∷ heap_items others.old) (record { 0 = result } ∷ heap_items others.new) }
    ensures least { IsFirst (Some result) (heap_items others.new) }
    ensures heap { IsHeap least_first (heap_items others.new) }
{
    match others.peek() {
        Some(Reverse(least)) if *least < head => {
            let least = *least;
            replace_least(others, head);
            least
        }
        _ => head,
    }
}

/// Puts a head into a heap in place of the least one.
fn replace_least(heads: &mut BinaryHeap<Reverse<Head>>, head: Head)
    requires some { 0 < heap_len heads.old }
    requires heap { IsHeap least_first (heap_items heads.old) }
    ensures heads { IsPermutation (record { 0 = head } ∷ drop 1 (heap_items heads.old)) (heap_items heads.new) }
    ensures heap { IsHeap least_first (heap_items heads.new) }
{
    let mut least = heads.peek_mut().unwrap();
    *least = Reverse(head);
}
