// The rules on a stream's length and times.

ghost use Rattle.std.specs.Prelude.{◌≡◌, ◌≤◌, ◌<◌, ◌^◌, length, Some, IfOk};
ghost use Rattle.trex_sched.specs.Times.{period_of};
ghost use Rattle.trex_profile.specs.Answer.{Gives};
ghost use Rattle.trex_profile.specs.Order.{unless};
ghost use Rattle.trex_profile.specs.Rules.{numerator_of, numerator, no_packets, time_rules};
ghost use Rattle.trex_profile.specs.Stream.{raw_stream};

use crate::fault::StreamFault;
use crate::raw::{RateKind, RawStream};
use crate::rule::Rule;
use trex_layers::{LONGEST_PACKET, SHORTEST_PACKET};
use trex_sched::{Mode, Period};

/// 10^15 nanoseconds times millionths: a second, and a packet or a bit.
const SECOND: u128 = 1_000_000_000_000_000;

/// The period of a stream, or the first rule on its length and times that is broken.
#[tactic(auto, unfolding(crate::specs::Rules::time_rules))]
pub(crate) fn period_of(raw: &RawStream) -> Result<Period, StreamFault>
    ensures value { Gives (λ _. raw_stream raw.now) result (unless (time_rules (raw_stream raw.now)) (raw_stream raw.now)) }
    ensures period { IfOk result (λ period. period_of (numerator (raw_stream raw.now)) raw.now.rate.value ≡ Some period) }
    ensures at_least { IfOk result (λ _. SHORTEST_PACKET ≤ length raw.now.template.items) }
    ensures at_most { IfOk result (λ _. length raw.now.template.items ≤ LONGEST_PACKET) }
{
    let length = raw.template.len();
    if length < SHORTEST_PACKET || length > LONGEST_PACKET {
        return Err(StreamFault::of_stream(Rule::BadLength));
    }
    if raw.rate.value == 0 {
        return Err(StreamFault::of_stream(Rule::RateZero));
    }
    let Some(period) = Period::new(numerator(raw.rate.kind, length), raw.rate.value) else {
        return Err(StreamFault::of_stream(Rule::RateTooHigh));
    };
    if has_no_packets(raw.mode) {
        return Err(StreamFault::of_stream(Rule::CountZero));
    }
    Ok(period)
}

/// The numerator of the period in nanoseconds, where the denominator is the rate in millionths.
fn numerator(kind: RateKind, length: usize) -> u128
    requires { length ≤ LONGEST_PACKET }
    ensures value { result ≡ numerator_of kind length }
    ensures bound { result < 10 ^ 20 }
{
    match kind {
        RateKind::Pps => SECOND,
        RateKind::BpsL1 => SECOND * 8 * (length as u128 + 24),
        RateKind::BpsL2 => SECOND * 8 * (length as u128 + 4),
    }
}

/// Whether a burst of the mode has no packets.
fn has_no_packets(mode: Mode) -> bool
    ensures { result ≡ no_packets mode }
{
    match mode {
        Mode::Continuous => false,
        Mode::SingleBurst { total } => total == 0,
        Mode::MultiBurst { per_burst, .. } => per_burst == 0,
    }
}
