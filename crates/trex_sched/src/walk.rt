// One core's packets of a chain, one after another.

ghost use Rattle.std.specs.Prelude.{◌≡◌, ◌+◌, ◌^◌, ◌<◌, ◌≤◌, List, Some, length, drop, slice_get};
ghost use Rattle.trex_sched.specs.declared.slot.Slot.{Slot as ASlot};
ghost use Rattle.trex_sched.specs.Chain.{chain_of, IsChain};
ghost use Rattle.trex_sched.specs.Entries.{entries, share};
ghost use Rattle.trex_sched.specs.Remaining.{IsReachable, IsStanding, IsWalk, rest_from, remaining};

use crate::chain::ChainSpec;
use crate::run::Run;
use crate::slot::Slot;
use crate::steps::{begin, next_in_run, next_run};
use crate::stride::{Stride, next_by_stride, stride_from};
use std::marker::Model;

/// Where a walk stands: at a packet of a run, or at the end.
#[derive(Clone, Copy)]
struct Cursor {
    next: Option<Slot>,
    /// The way from `next` to the core's later packets of the same burst, where there are some.
    stride: Option<Stride>,
    run: Run,
}

/// Goes to the core's first packet from packet `from` of the cursor's run on, in this run or a later one.
fn seek(chain: &ChainSpec, core: u64, cores: u64, duration: u64, cursor: &mut Cursor, mut from: u64)
    requires chain { IsChain (chain_of chain.now) }
    requires core { core < cores }
    requires cores { cores ≤ 64 }
    requires duration { duration ≤ 10 ^ 18 }
    requires reached { IsReachable (chain_of chain.now) cursor.old.run }
    requires begun { cursor.old.run.start < duration }
    requires from { from ≤ 10 ^ 18 }
    ensures rest { remaining (chain_of chain.now) core cores duration cursor.new.run cursor.new.next
        ≡ rest_from (chain_of chain.now) core cores duration cursor.old.run from }
    ensures stands { IsStanding (chain_of chain.now) core cores duration cursor.new.run cursor.new.stride cursor.new.next }
{
    loop {
        if let Some(slot) = next_in_run(&cursor.run, core, cores, duration, from) {
            cursor.stride = stride_from(&cursor.run, cores, &slot);
            cursor.next = Some(slot);
            return;
        }
        match next_run(chain, &cursor.run, duration) {
            None => {
                cursor.next = None;
                return;
            }
            Some(later) => {
                cursor.run = later;
                from = 0;
            }
        }
    }
}

/// Goes from the slot at which a cursor stands to the core's next one.
fn step(chain: &ChainSpec, core: u64, cores: u64, duration: u64, cursor: &mut Cursor, slot: &Slot)
    requires chain { IsChain (chain_of chain.now) }
    requires core { core < cores }
    requires cores { cores ≤ 64 }
    requires duration { duration ≤ 10 ^ 18 }
    requires stands { IsStanding (chain_of chain.now) core cores duration cursor.old.run cursor.old.stride (Some slot.now) }
    ensures rest { remaining (chain_of chain.now) core cores duration cursor.new.run cursor.new.next
        ≡ rest_from (chain_of chain.now) core cores duration cursor.old.run (slot.now.in_run + 1) }
    ensures stands { IsStanding (chain_of chain.now) core cores duration cursor.new.run cursor.new.stride cursor.new.next }
{
    match next_by_stride(&cursor.run, cores, duration, slot, &mut cursor.stride) {
        Some(later) => cursor.next = Some(later),
        None => seek(chain, core, cores, duration, cursor, slot.in_run + 1),
    }
}

/// The packets of one core of a chain that are due below a duration, one after another. It is seen as the list of the slots still to come.
/// It takes no memory.
#[derive(Drop)]
pub struct Walk<'p> {
    // What each step reads stands together.
    cores: u64,
    duration: u64,
    cursor: Cursor,
    chain: &'p ChainSpec,
    core: u64,
}

impl<'p> Model for Walk<'p> {
    ghost Value = { List ASlot };

    ghost view = { λ w. remaining (chain_of w.chain.now) w.core w.cores w.duration w.cursor.run w.cursor.next };

    ghost invariant = { λ w. IsWalk (chain_of w.chain.now) w.core w.cores w.duration w.cursor.run w.cursor.stride w.cursor.next };
}

impl<'p> Walk<'p> {
    /// The walk of core `core` of `cores` over a chain, whose packets are those with a number that leaves `core` as the remainder
    /// by `cores`.
    pub fn start(chain: &'p ChainSpec, core: u32, cores: u32, duration: u64) -> Walk<'p>
        requires chain { IsChain (chain_of chain.now) }
        requires core { core < cores }
        requires cores { cores ≤ 64 }
        requires duration { duration ≤ 10 ^ 18 }
        ensures { result ≡ share core cores (entries (chain_of chain.now) duration) }
    {
        let core = u64::from(core);
        let cores = u64::from(cores);
        Walk {
            cores,
            duration,
            cursor: first_of(chain, core, cores, duration),
            chain,
            core,
        }
    }

    /// The next slot: None exactly where no further slot of this core is due below the duration.
    pub fn peek(&self) -> Option<Slot>
        ensures { result ≡ slice_get self.now 0 }
    {
        self.cursor.next
    }

    /// Passes the next slot.
    pub fn advance(&mut self)
        requires { 0 < length self.old }
        ensures { self.new ≡ drop 1 self.old }
    {
        if let Some(slot) = self.cursor.next {
            step(
                self.chain,
                self.core,
                self.cores,
                self.duration,
                &mut self.cursor,
                &slot,
            );
        }
    }
}

/// Where a core's walk over a chain begins.
fn first_of(chain: &ChainSpec, core: u64, cores: u64, duration: u64) -> Cursor
    requires chain { IsChain (chain_of chain.now) }
    requires core { core < cores }
    requires cores { cores ≤ 64 }
    requires duration { duration ≤ 10 ^ 18 }
    ensures whole { remaining (chain_of chain.now) core cores duration result.run result.next
        ≡ share core cores (entries (chain_of chain.now) duration) }
    ensures stands { IsStanding (chain_of chain.now) core cores duration result.run result.stride result.next }
{
    match begin(chain, 0, 0, 0, duration) {
        Some(run) => {
            let mut cursor = Cursor {
                next: None,
                stride: None,
                run,
            };
            seek(chain, core, cores, duration, &mut cursor, 0);
            cursor
        }
        None => Cursor {
            next: None,
            stride: None,
            run: Run {
                leg: chain.legs[0],
                place: 0,
                visit: 0,
                start: 0,
            },
        },
    }
}
