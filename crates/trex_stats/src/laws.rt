// The laws of counts.

ghost use Rattle.std.specs.Prelude.{◌≡◌, ℕ, List, length};
ghost use Rattle.trex_stats.specs.Arrivals.{line_of};
ghost use Rattle.trex_stats.specs.Laws.{AreAsSent, clean_line};
ghost use Rattle.trex_stats.specs.declared.arrival.Arrival.{Arrival};

/// Law: packets that came as they were sent have a line of zeros but for their number.
pub fn measures_clean()
    ensures { (flow : ℕ) (ps : List Arrival) → AreAsSent 0 ps → line_of flow ps ≡ clean_line flow (length ps) }
{}
