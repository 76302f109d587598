//! The packets that wait first at the cores: their keys stand in one list, and one look at it tells what comes next.

ghost use Rattle.std.specs.Prelude.{◌≡◌, ◌<◌, IfOk, length, map, slice_set};
ghost use Rattle.trex_merge.specs.Queues.{next_of};
ghost use Rattle.trex_run.specs.Firsts.{IsBound, first_at, firsts_of, led};
ghost use Rattle.trex_run.specs.Ready.{queues_of};

use std::alloc::Global;
use std::marker::Model;
use trex_core::CoreWork;
use trex_io::Memory;
use trex_merge::{Feed, Key, Next, stands_before};

/// What comes next; and where it is a packet, the least key of those that wait first at all other cores.
#[derive(Clone, Copy, Drop)]
pub(crate) struct Coming {
    pub(crate) next: Next,
    pub(crate) before: Option<Key>,
}

/// What is known of some cores: the least key of the packets that wait first, if any, at which core, and the least of the others.
#[derive(Clone, Copy, Drop)]
struct Lead {
    least: Option<Key>,
    feed: usize,
    before: Option<Key>,
}

/// The same with the key of one core more, which stands before the least of the others, if any.
fn led(lead: Lead, key: Key, at: usize) -> Lead
    ensures { result ≡ led lead key at }
{
    if stands_before(&key, lead.least) {
        Lead {
            least: Some(key),
            feed: at,
            before: lead.least,
        }
    } else {
        Lead {
            least: lead.least,
            feed: lead.feed,
            before: Some(key),
        }
    }
}

/// What comes next, where so many packets may still be sent.
fn look<F: Feed>(left: u64, feeds: &[F], firsts: &[Option<Key>]) -> Coming
    requires firsts { firsts.now ≡ firsts_of (map F.queue feeds.now) }
    ensures next { result.next ≡ next_of left (map F.queue feeds.now) }
    ensures bound { IsBound result.next result.before (map F.queue feeds.now) }
{
    if left == 0 {
        return Coming {
            next: Next::End,
            before: None,
        };
    }
    let mut lead = Lead {
        least: None,
        feed: 0,
        before: None,
    };
    for (at, first) in firsts.iter().enumerate() {
        match *first {
            Some(key) => {
                if stands_before(&key, lead.before) {
                    lead = led(lead, key, at);
                }
            }
            None => {
                if !feeds[at].finished() {
                    return Coming {
                        next: Next::Need { core: at },
                        before: None,
                    };
                }
            }
        }
    }
    Coming {
        next: match lead.least {
            Some(_) => Next::Packet { feed: lead.feed },
            None => Next::End,
        },
        before: lead.before,
    }
}

/// Reads anew which packets wait first at all cores.
fn read_all(works: &[CoreWork<'_>], firsts: &mut [Option<Key>])
    requires { length firsts.old ≡ length works.now }
    ensures { firsts.new ≡ firsts_of (queues_of works.now) }
{
    for at in 0..works.len() {
        firsts[at] = works[at].first_key();
    }
}

/// The keys of the packets that wait first at the cores, each in its core's place. Contracts see it as their list.
#[derive(Drop)]
pub(crate) struct FirstKeys {
    keys: Vec<Option<Key>>,
}

impl Model for FirstKeys {
    ghost use Rattle.std.specs.Prelude.{List, Option};
    ghost use Rattle.trex_merge.specs.declared.key.Key.{Key as AKey};

    ghost Value = { List (Option AKey) };

    ghost view = { λ f. f.keys.items };
}

impl FirstKeys {
    /// A place for each core, and no key. The memory for the whole run is taken here.
    pub(crate) fn new(alloc: Global, cores: u32) -> Result<FirstKeys, Memory>
        ensures { IfOk result (λ firsts. length firsts ≡ cores) }
    {
        let keys = vec![in alloc; None; cores as usize]?;
        Ok(FirstKeys { keys })
    }

    /// Reads anew which packet waits first at a core.
    pub(crate) fn read(&mut self, works: &[CoreWork<'_>], feed: usize)
        requires within { feed < length works.now }
        requires places { length self.old ≡ length works.now }
        ensures { self.new ≡ slice_set self.old feed (first_at feed (queues_of works.now)) }
    {
        self.keys[feed] = works[feed].first_key();
    }

    /// Reads anew which packets wait first at all cores.
    pub(crate) fn read_all(&mut self, works: &[CoreWork<'_>])
        requires { length self.old ≡ length works.now }
        ensures { self.new ≡ firsts_of (queues_of works.now) }
    {
        read_all(works, &mut self.keys);
    }

    /// What comes next, where so many packets may still be sent.
    pub(crate) fn look<F: Feed>(&self, left: u64, feeds: &[F]) -> Coming
        requires { self.now ≡ firsts_of (map F.queue feeds.now) }
        ensures next { result.next ≡ next_of left (map F.queue feeds.now) }
        ensures bound { IsBound result.next result.before (map F.queue feeds.now) }
    {
        look(left, feeds, &self.keys)
    }
}
