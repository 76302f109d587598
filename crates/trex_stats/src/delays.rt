// What is kept of the latencies of a flow.

ghost use Rattle.std.specs.Prelude.{◌≡◌, ◌+◌, ◌*◌, ◌^◌, ◌<◌, ◌≤◌, min, max, [], ◌∷◌, ◌++◌, List, if◌then◌else◌, ◌==◌};
ghost use Rattle.trex_stats.specs.declared.arrival.Arrival.{Arrival};

/// What is kept of the latencies of a flow, in ns.
#[derive(Drop)]
pub(crate) struct Delays {
    /// How many packets came before they were due; they have no latency.
    pub(crate) early: u64,
    /// How many didn't.
    pub(crate) timely: u64,
    pub(crate) least: u64,
    pub(crate) greatest: u64,
    pub(crate) total: u128,
    ghost small: { total ≤ timely * 2 ^ 64 },
}

impl Delays {
    ghost use Rattle.trex_stats.specs.Kept.{AreDelays};

    /// What is kept of no packets.
    pub(crate) fn new() -> Delays
        ensures delays { AreDelays result [] }
        ensures empty { (result.early ≡ 0) × (result.timely ≡ 0) }
    {
        Delays {
            early: 0,
            timely: 0,
            least: 0,
            greatest: 0,
            total: 0,
        }
    }

    /// Counts one more packet, that was due and came at these times in ns.
    pub(crate) fn add(&mut self, sent: u64, came: u64)
        requires { self.old.early + self.old.timely < 2 ^ 32 }
        ensures kept { (ps : List Arrival) (a : Arrival) → AreDelays self.old ps → a.sent ≡ sent → a.came ≡ came
            → AreDelays self.new (ps ++ a ∷ []) }
        ensures one { self.new.early + self.new.timely ≡ self.old.early + self.old.timely + 1 }
    {
        if came < sent {
            self.early += 1;
            return;
        }
        let latency = came - sent;
        self.least = lower(self.timely, self.least, latency);
        self.greatest = self.greatest.max(latency);
        self.total += u128::from(latency);
        self.timely += 1;
    }
}

/// The least latency after one more, where so many came before.
fn lower(before: u64, least: u64, latency: u64) -> u64
    ensures { result ≡ (if before == 0 then latency else min least latency) }
{
    if before == 0 {
        latency
    } else {
        least.min(latency)
    }
}
