// What keeps the records of a capture.

ghost use Rattle.std.specs.Prelude.{◌≡◌, ℕ, ◌+◌, ◌^◌, ◌<◌, ◌≤◌, List, [], ◌∷◌, ◌++◌, length, OnOk};
ghost use Rattle.trex_io.specs.Seen.{Seen};
ghost use Rattle.trex_stats.specs.Counts.{StandsFor};

use trex_io::Memory;
use trex_stats::Stats;

/// What keeps records, one after another.
pub trait Keep: Drop {
    /// What is kept is that of these records.
    ghost stands: { Self → List Seen → Type 0 };

    /// How many records are kept.
    ghost kept: { Self → ℕ };

    /// What else the keeper knows, which `take` keeps.
    ghost mark: { Self → List ℕ };

    /// Keeps one more record, of this time in ns, these captured bytes and this original length. Out of memory, nothing is
    /// promised of the keeper.
    fn take(&mut self, time: u64, bytes: &[u8], original: u32) -> Result<(), Memory>
        requires few { kept self.old < 100000000 }
        requires early { time < 2 ^ 63 }
        requires short { length bytes.now ≤ 262144 }
        ensures stands { OnOk result ((rs : List Seen) → stands self.old rs
            → stands self.new (rs ++ record { time = time; bytes = bytes.now; original = original } ∷ [])) }
        ensures kept { OnOk result (kept self.new ≡ kept self.old + 1) }
        ensures mark { OnOk result (mark self.new ≡ mark self.old) };
}

impl Keep for Stats {
    ghost stands = { StandsFor };

    ghost kept = { λ c. c.records };

    ghost mark = { λ c. [] };

    fn take(&mut self, time: u64, bytes: &[u8], original: u32) -> Result<(), Memory> {
        self.add(time, bytes, original)
    }
}
