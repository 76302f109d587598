// The laws of the schedule.

ghost use Rattle.std.specs.Prelude.{◌≡◌, ◌==◌, ◌∷◌, ◌++◌, ◌<◌, ◌≤◌, ℕ, nat_lt, count_by, List, map, Some};
ghost use Rattle.std.specs.List.{AllByRecursion, filter};
ghost use Rattle.trex_merge.specs.Order.{AreDistinct, EachPair, Has, IsRising, ordered};
ghost use Rattle.trex_sched.specs.Chain.{Chain, IsChain};
ghost use Rattle.trex_sched.specs.Entries.{entries, key_of, share};
ghost use Rattle.trex_sched.specs.Numbers.{AreNumbered, of_stream};
ghost use Rattle.trex_sched.specs.Runs.{run_at, runs, runs_from};
ghost use Rattle.trex_sched.specs.Times.{HasPackets, offset, size, span};
ghost use Rattle.trex_sched.specs.Walks.{HaveDistinctStreams, all_entries};
ghost use Rattle.trex_sched.specs.declared.chain.Leg.{Leg};
ghost use Rattle.trex_sched.specs.declared.run.Run.{Run as ARun};
ghost use Rattle.trex_sched.specs.declared.slot.Slot.{Slot as ASlot};

/// The laws of the times of a run.
pub fn offsets_rise()
    // A packet stands at least its number of ns after the start, and later packets stand later.
    ensures spread { (leg : Leg) (k : ℕ) → HasPackets leg.mode → k ≤ offset leg k }
    ensures rising { (leg : Leg) (j k : ℕ) → HasPackets leg.mode → j < k → offset leg j < offset leg k }
    // A run that ends has a packet, and lasts at least 1 ns a packet.
    ensures ends { (leg : Leg) (n s : ℕ) → HasPackets leg.mode → size leg ≡ Some n → span leg ≡ Some s → (1 ≤ n) × (n ≤ s) }
    // Each packet stands before the run's end.
    ensures within { (leg : Leg) (k n s : ℕ) → HasPackets leg.mode → size leg ≡ Some n → span leg ≡ Some s → k < n → offset leg k < s }
{}

/// The laws of the runs of a chain.
pub fn runs_rise()
    // A run's visit is the number of earlier runs of its leg.
    ensures visits { (chain : Chain) (d : ℕ) (before after : List ARun) (run : ARun) → IsChain chain → runs chain d ≡ before ++ (run ∷ after)
        → run.visit ≡ count_by (λ earlier. earlier.place == run.place) before }
    // However many runs are looked at, no other starts below the duration.
    ensures all { (chain : Chain) (d n : ℕ) → IsChain chain → d ≤ n
        → filter (λ run. nat_lt run.start d) (runs_from chain n (run_at chain 0 0 0)) ≡ runs chain d }
    // Each run starts later than those before it, by 1 ns or more.
    ensures rising { (chain : Chain) (d : ℕ) → IsChain chain → EachPair (λ run later. run.start < later.start) (runs chain d) }
{}

/// The laws of the packets of a chain.
pub fn entries_rise()
    // They rise, and no two have one stream and one number.
    ensures rising { (chain : Chain) (d : ℕ) → IsChain chain → IsRising key_of (entries chain d) }
    ensures distinct { (chain : Chain) (d : ℕ) → IsChain chain → AreDistinct key_of (entries chain d) }
    // A packet's number is at most its time, and its time is below the duration.
    ensures numbers { (chain : Chain) (d : ℕ) → IsChain chain → AllByRecursion (λ slot. slot.number ≤ slot.time) (entries chain d) }
    ensures below { (chain : Chain) (d : ℕ) → AllByRecursion (λ slot. slot.time < d) (entries chain d) }
    // Its place in its run is at most its number.
    ensures places { (chain : Chain) (d : ℕ) → IsChain chain → AllByRecursion (λ slot. slot.in_run ≤ slot.number) (entries chain d) }
    // Their streams are those of the legs.
    ensures streams { (chain : Chain) (d : ℕ) → IsChain chain
        → AllByRecursion (λ slot. Has (map (λ leg. leg.stream) chain.legs) slot.stream) (entries chain d) }
    // A core's part rises too, and one core has all.
    ensures shares { (chain : Chain) (core cores d : ℕ) → IsChain chain → IsRising key_of (share core cores (entries chain d)) }
    ensures whole { (slots : List ASlot) → share 0 1 slots ≡ slots }
{}

/// The packets of many chains whose legs name distinct streams.
pub fn chains_are_apart()
    // No two have one stream and one number.
    ensures { (chains : List Chain) (d : ℕ) → AllByRecursion IsChain chains → HaveDistinctStreams chains
        → AreDistinct key_of (all_entries chains d) }
{}

/// The packets of a stream have all numbers from 0 on, in order.
pub fn numbers_follow()
    ensures chain { (chain : Chain) (d stream : ℕ) → IsChain chain → AreNumbered 0 (of_stream stream (entries chain d)) }
    ensures chains { (chains : List Chain) (d stream : ℕ) → AllByRecursion IsChain chains → HaveDistinctStreams chains
        → AreNumbered 0 (of_stream stream (ordered key_of (all_entries chains d))) }
{}
