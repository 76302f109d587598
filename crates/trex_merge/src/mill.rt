// The merge: `peek` says which feed's first packet comes next, and `take` sends it.

ghost use Rattle.std.specs.Prelude.{◌≡◌, ℕ, ◌+◌, ◌-◌, ◌≤◌, ◌≢◌, map, slice_get};
ghost use Rattle.trex_merge.specs.declared.next.Next.{Next};
ghost use Rattle.trex_merge.specs.declared.next.Next.TheVariants.{Packet};
ghost use Rattle.trex_merge.specs.Queues.{at_place, next_of, popped};

use crate::feed::Feed;
use crate::key::Keyed;
use crate::next::Next;
use crate::place::{Place, earlier};

/// The merge: it counts what was sent against a limit, and tells which packet comes next. It takes no memory.
#[derive(Debug, Drop)]
pub struct Mill {
    limit: u64,
    sent: u64,
}

impl Mill {
    /// A merge that sends at most so many packets.
    pub fn new(limit: u64) -> Mill
        ensures limit { result.limit ≡ limit }
        ensures sent { result.sent ≡ 0 }
    {
        Mill { limit, sent: 0 }
    }

    /// What comes next. `End` where as many packets were sent as may be, or where all feeds are finished; else `Need` for the first
    /// feed at which nothing waits and which isn't finished; else `Packet` for the feed whose first packet is the least by time,
    /// stream and number.
    pub fn peek<F: Feed>(&self, feeds: &[F]) -> Next
        ensures { result ≡ next_of (self.now.limit - self.now.sent) (map F.queue feeds.now) }
    {
        if self.limit <= self.sent {
            return Next::End;
        }
        let mut best: Option<Place> = None;
        for (at, feed) in feeds.iter().enumerate() {
            match feed.head() {
                Some(head) => {
                    let place = Place {
                        key: head.key(),
                        feed: at,
                    };
                    best = Some(earlier(best, place));
                }
                None => {
                    if !feed.finished() {
                        return Next::Need { core: at };
                    }
                }
            }
        }
        match best {
            Some(place) => Next::Packet { feed: place.feed },
            None => Next::End,
        }
    }

    /// How many packets more may be sent.
    pub fn left(&self) -> u64
        ensures { result ≡ self.now.limit - self.now.sent }
    {
        self.limit.saturating_sub(self.sent)
    }

    /// Counts packets of a run that were taken from their feed.
    pub fn pass(&mut self, packets: u64)
        requires { self.old.sent + packets ≤ self.old.limit }
        ensures limit { self.new.limit ≡ self.old.limit }
        ensures sent { self.new.sent ≡ self.old.sent + packets }
    {
        self.sent += packets;
    }

    /// Sends the packet that comes next: it is taken from its feed, and counted.
    pub fn take<F: Feed>(&mut self, feeds: &mut [F], feed: usize)
        requires { next_of (self.old.limit - self.old.sent) (map F.queue feeds.old) ≡ Next.Packet feed }
        ensures limit { self.new.limit ≡ self.old.limit }
        ensures sent { self.new.sent ≡ self.old.sent + 1 }
        ensures queues { map F.queue feeds.new ≡ at_place popped feed (map F.queue feeds.old) }
        ensures others { (k : ℕ) → k ≢ feed → slice_get feeds.new k ≡ slice_get feeds.old k }
        ensures marks { map F.mark feeds.new ≡ map F.mark feeds.old }
    {
        feeds[feed].pop();
        self.sent += 1;
    }
}
