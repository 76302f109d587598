// The time between two packets of a burst, and the times of a burst's packets.

ghost use Rattle.std.specs.Prelude.{◌≡◌, ◌<◌, ◌≤◌, ◌^◌};

/// The least numerator, in nanoseconds, that is too great for a period.
const LIMIT: u128 = 100_000_000_000_000_000_000;

/// The time between two packets of a burst, as the fraction `num / den` in nanoseconds: at least 1 ns, its numerator below 10^20.
#[derive(Clone, Copy, Debug, PartialEq, Eq)]
pub struct Period {
    num: u128,
    den: u128,
    pub ghost whole: { 0 < den },
    pub ghost at_least_one: { den ≤ num },
    pub ghost short: { num < 10 ^ 20 },
}

/// The time of a packet of a burst, from the burst's start: whole nanoseconds, and what the division by the period's denominator leaves.
#[derive(Clone, Copy)]
pub(crate) struct Split {
    pub(crate) whole: u128,
    pub(crate) rest: u128,
}

impl Period {
    ghost use Rattle.std.specs.Prelude.{◌⊎◌, ◌↔◌, ◌*◌, ◌+◌, ℕ, IsNone, IfSome};
    ghost use Rattle.trex_sched.specs.Strides.{IsSplit};
    ghost use Rattle.trex_sched.specs.Times.{burst_offset, period_of};

    /// The period of `num / den` nanoseconds. There is none where it is below 1 ns or the fraction isn't one that is held.
    pub fn new(num: u128, den: u128) -> Option<Period>
        ensures exact { result ≡ period_of num den }
        ensures none { IsNone result ↔ ((den ≡ 0) ⊎ ((num < den) ⊎ (10 ^ 20 ≤ num))) }
        ensures value { IfSome result (λ period. (period.num ≡ num) × (period.den ≡ den)) }
    {
        if den == 0 || num < den || num >= LIMIT {
            return None;
        }
        Some(Period { num, den })
    }

    /// The time of packet `k` of a burst, from the burst's start, in nanoseconds: the floor of `k * num / den`.
    pub(crate) fn offset(&self, k: u64) -> u128
        requires { k < 3 * 10 ^ 18 }
        ensures value { result ≡ burst_offset self.now k }
        ensures small { result ≤ k * 10 ^ 20 }
    {
        u128::from(k) * self.num / self.den
    }

    /// The time of packet `k` of a burst, from the burst's start, split into whole nanoseconds and a rest.
    pub(crate) fn split(&self, k: u64) -> Split
        requires { k < 3 * 10 ^ 18 }
        ensures split { IsSplit self.now k result }
        ensures small { result.whole ≤ k * 10 ^ 20 }
    {
        let scaled = u128::from(k) * self.num;
        Split {
            whole: scaled / self.den,
            rest: scaled % self.den,
        }
    }

    /// The time of the packet whose number is the sum of the numbers of two packets with these times.
    pub(crate) fn later(&self, one: Split, other: Split) -> Split
        requires wholes { (one.whole < 2 ^ 126) × (other.whole < 2 ^ 126) }
        requires rests { (one.rest < self.now.den) × (other.rest < self.now.den) }
        ensures split { (j k : ℕ) → IsSplit self.now j one → IsSplit self.now k other → IsSplit self.now (j + k) result }
        ensures bound { result.whole ≤ one.whole + other.whole + 1 }
    {
        let whole = one.whole + other.whole;
        let rest = one.rest + other.rest;
        if rest < self.den {
            Split { whole, rest }
        } else {
            Split {
                whole: whole + 1,
                rest: rest - self.den,
            }
        }
    }
}
