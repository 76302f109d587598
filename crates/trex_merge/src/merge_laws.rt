// The laws of the merge, over all refills and emissions.

ghost use Rattle.std.specs.Prelude.{◌≡◌, ℕ, ◌-◌, ◌%◌, ◌<◌, ◌≤◌, ◌==◌, ◌↔◌, ◌⊎◌, [], List, Option, length, map, replicate, slice_get};
ghost use Rattle.std.specs.List.{AllByRecursion, filter};
ghost use Rattle.trex_merge.specs.declared.key.Key.{Key};
ghost use Rattle.trex_merge.specs.declared.next.Next.TheVariants.{End, Need, Packet};
ghost use Rattle.trex_merge.specs.Frames.{Frame, key_of, sequence, share, shares};
ghost use Rattle.trex_merge.specs.Machine.{Emit, Event, HaveShares, IsEnded, IsMill, IsPrefixOf, MillState, Refill, happens, next_in, run, start};
ghost use Rattle.trex_merge.specs.Order.{AreDistinct, joined, ordered};
ghost use Rattle.trex_merge.specs.Queues.{IsLeastAt, IsNeedyFirst, Queue, next_of, stem, waiting_at};
ghost use Rattle.trex_merge.specs.Runs.{IsLeastElsewhere, OthersNotBefore, passed, run_length};

use crate::key::Keyed;

/// Whatever the cores make and whenever, and whenever a packet is sent: what was sent is the beginning of the sequence.
pub fn any_events()
    ensures prefix { (frames : List Frame) (cores limit : ℕ) (events : List Event) → AreDistinct key_of frames → 0 < cores
        → IsPrefixOf (run events (start cores limit frames)).sent (sequence limit frames) }
    // Where the state is ended, what was sent is the sequence.
    ensures whole { (frames : List Frame) (cores limit : ℕ) (events : List Event) → AreDistinct key_of frames → 0 < cores
        → IsEnded (run events (start cores limit frames))
        → (run events (start cores limit frames)).sent ≡ sequence limit frames }
    // So two lists of events that both end send the same, also on other numbers of cores.
    ensures same { (frames : List Frame) (cores others limit : ℕ) (events later : List Event) → AreDistinct key_of frames
        → 0 < cores → 0 < others
        → IsEnded (run events (start cores limit frames)) → IsEnded (run later (start others limit frames))
        → (run events (start cores limit frames)).sent ≡ (run later (start others limit frames)).sent }
{}

/// The mill is one in the beginning, and each event keeps it one.
pub fn events_keep_the_mill()
    ensures start { (frames : List Frame) (cores limit : ℕ) → AreDistinct key_of frames → 0 < cores
        → IsMill frames (start cores limit frames) }
    ensures refill { (frames : List Frame) (state : MillState) (core most : ℕ) → IsMill frames state
        → IsMill frames (happens state (Refill core most)) }
    ensures emit { (frames : List Frame) (state : MillState) → IsMill frames state → IsMill frames (happens state Emit) }
    ensures run { (frames : List Frame) (state : MillState) (events : List Event) → IsMill frames state
        → IsMill frames (run events state) }
    ensures prefix { (frames : List Frame) (state : MillState) → IsMill frames state
        → IsPrefixOf state.sent (sequence state.limit frames) }
    ensures whole { (frames : List Frame) (state : MillState) → IsMill frames state → IsEnded state
        → state.sent ≡ sequence state.limit frames }
    // The packet that comes next is that of the sequence which follows what was sent.
    ensures next { (frames : List Frame) (state : MillState) (at : ℕ) → IsMill frames state → next_in state ≡ Packet at
        → slice_get (waiting_at at state.queues) 0 ≡ slice_get (sequence state.limit frames) (length state.sent) }
{}

/// Each core's share: what was sent of it, then what waits, then what is to come. No event changes it.
pub fn events_keep_the_shares()
    ensures start { (frames : List Frame) (cores limit : ℕ) → HaveShares cores frames (start cores limit frames) }
    ensures refill { (frames : List Frame) (cores : ℕ) (state : MillState) (core most : ℕ) → HaveShares cores frames state
        → HaveShares cores frames (happens state (Refill core most)) }
    ensures emit { (frames : List Frame) (cores : ℕ) (state : MillState) → HaveShares cores frames state
        → HaveShares cores frames (happens state Emit) }
{}

/// What comes next, in the words of the queues.
pub fn what_comes_next()
    // The packet is the first that waits there, none that waits comes before it, and no core has to be waited for.
    ensures packet { (more at : ℕ) (queues : List Queue) → next_of more queues ≡ Packet at → IsLeastAt at queues }
    // The core is the first at which nothing waits and something is to come.
    ensures need { (more core : ℕ) (queues : List Queue) → next_of more queues ≡ Need core → IsNeedyFirst core queues }
    // As many packets were sent as may be, or nothing is left.
    ensures end { (more : ℕ) (queues : List Queue)
        → (next_of more queues ≡ End) ↔ ((more ≡ 0) ⊎ AllByRecursion (λ queue. stem queue ≡ []) queues) }
    ensures ended { (state : MillState) → (next_in state ≡ End) ↔ IsEnded state }
{}

/// A run: the packets at the front of a queue that stand before those of all other cores.
pub fn runs_are_emissions()
    // Where a packet comes next, and other first packets don't stand before a key, packets that stand before it are sent by as many emissions.
    ensures run { (state : MillState) (at many : ℕ) (before : Option Key) → next_in state ≡ Packet at → OthersNotBefore at before state.queues
        → many ≤ run_length before (state.limit - length state.sent) (waiting_at at state.queues)
        → run (replicate many Emit) state ≡ passed at many state }
    ensures mill { (frames : List Frame) (state : MillState) (at many : ℕ) (before : Option Key) → IsMill frames state → next_in state ≡ Packet at
        → OthersNotBefore at before state.queues → many ≤ run_length before (state.limit - length state.sent) (waiting_at at state.queues)
        → IsMill frames (passed at many state) }
    // Where the key is the least of the others, there is such a packet.
    ensures some { (frames : List Frame) (state : MillState) (at : ℕ) (before : Option Key) → IsMill frames state → next_in state ≡ Packet at
        → IsLeastElsewhere at before state.queues → 0 < run_length before (state.limit - length state.sent) (waiting_at at state.queues) }
{}

/// The packets of all cores together are all packets.
pub fn shares_are_all()
    ensures { (frames : List Frame) (cores : ℕ) → AreDistinct key_of frames → 0 < cores
        → ordered key_of (joined (shares cores frames)) ≡ ordered key_of frames }
{}

/// Packets made of values, each with its value's key, are in order as the values are.
pub fn frames_follow<T: Keyed>()
    ensures distinct { (frame : T → Frame) (xs : List T) → ((x : T) → key_of (frame x) ≡ T.key_of x)
        → AreDistinct T.key_of xs → AreDistinct key_of (map frame xs) }
    ensures ordered { (frame : T → Frame) (xs : List T) → ((x : T) → key_of (frame x) ≡ T.key_of x)
        → map frame (ordered T.key_of xs) ≡ ordered key_of (map frame xs) }
    ensures share { (frame : T → Frame) (xs : List T) (core cores : ℕ) → ((x : T) → key_of (frame x) ≡ T.key_of x)
        → map frame (filter (λ x. (T.key_of x).number % cores == core) (ordered T.key_of xs)) ≡ share core cores (map frame xs) }
{}
