// When the packets of a run are due, and how long it lasts, below a limit.

ghost use Rattle.std.specs.Prelude.{◌≡◌, ◌+◌, ◌*◌, ◌^◌, ◌<◌, ◌≤◌};
ghost use Rattle.std.specs.Option.{option_and_then};
ghost use Rattle.trex_sched.specs.Times.{HasPackets, below, offset_of, size_of, span_of};

use crate::mode::Mode;
use crate::period::Period;

/// The number of packets of one run. None where it has no end.
pub(crate) fn packets_in(mode: &Mode) -> Option<u64>
    ensures { result ≡ size_of mode.now }
{
    match *mode {
        Mode::Continuous => None,
        Mode::SingleBurst { total } => Some(u64::from(total)),
        Mode::MultiBurst { count: 0, .. } => None,
        Mode::MultiBurst {
            per_burst,
            count,
            ..
        } => Some(u64::from(per_burst) * u64::from(count)),
    }
}

/// The time of packet `k` of a run from the run's start, in nanoseconds. None where it isn't below the limit.
pub(crate) fn offset_below(period: &Period, mode: &Mode, k: u64, limit: u64) -> Option<u64>
    requires packets { HasPackets mode.now }
    requires small { k < 3 * 10 ^ 18 }
    requires limit { limit ≤ 10 ^ 18 }
    ensures { result ≡ below limit (offset_of period.now mode.now k) }
{
    match *mode {
        Mode::Continuous => time_below(period.offset(k), limit),
        Mode::SingleBurst { total: _ } => time_below(period.offset(k), limit),
        Mode::MultiBurst {
            per_burst,
            ibg,
            count: _,
        } => {
            let per_burst = u64::from(per_burst);
            let turn = period.offset(per_burst) + u128::from(ibg);
            bursts_below(k / per_burst, turn, period.offset(k % per_burst), limit)
        }
    }
}

/// How long a run lasts, in nanoseconds. None where it has no end, or not below the limit.
pub(crate) fn span_below(period: &Period, mode: &Mode, limit: u64) -> Option<u64>
    requires { limit ≤ 10 ^ 18 }
    ensures { result ≡ option_and_then (below limit) (span_of period.now mode.now) }
{
    match *mode {
        Mode::Continuous => None,
        Mode::SingleBurst { total } => time_below(period.offset(u64::from(total)), limit),
        Mode::MultiBurst { count: 0, .. } => None,
        Mode::MultiBurst {
            per_burst,
            ibg,
            count,
        } => {
            let gaps = u128::from(count - 1) * u128::from(ibg);
            bursts_below(
                u64::from(count),
                period.offset(u64::from(per_burst)),
                gaps,
                limit,
            )
        }
    }
}

/// The time of `bursts` bursts of `burst` nanoseconds each and `more` nanoseconds. None where it isn't below the limit; a product that
/// could leave 128 bits is never taken.
fn bursts_below(bursts: u64, burst: u128, more: u128, limit: u64) -> Option<u64>
    requires few { bursts < 3 * 10 ^ 18 }
    requires short { more < 2 ^ 127 }
    requires limit { limit ≤ 10 ^ 18 }
    ensures { result ≡ below limit (bursts * burst + more) }
{
    if bursts == 0 {
        return time_below(more, limit);
    }
    if burst >= u128::from(limit) {
        return None;
    }
    time_below(u128::from(bursts) * burst + more, limit)
}

/// A time. None where it isn't below the limit.
fn time_below(time: u128, limit: u64) -> Option<u64>
    ensures { result ≡ below limit time }
{
    if time < u128::from(limit) {
        Some(time as u64)
    } else {
        None
    }
}
