// Periods, walks over chains, packet by packet, and the laws called once.

ghost use Rattle.std.specs.Prelude.{◌≡◌, ◌≢◌, ℕ, [], ◌∷◌, None, IfOk};
ghost use Rattle.trex_sched.specs.Chain.{chain_of, IsChain};
ghost use Rattle.trex_sched.specs.declared.mode.Mode.TheVariants.{SingleBurst};
ghost use Rattle.trex_sched.specs.Times.{HasPackets};

use std::alloc::{AllocError, Global};
use std::process::Abort;
use std::test::Fail;
use trex_merge::Keyed;
use trex_sched::{
    ChainSpec, Leg, Mode, Period, Slot, Walk, chains_are_apart, entries_rise, offsets_rise,
    runs_rise,
};

/// The greatest numerator of a period.
const MOST: u128 = 99_999_999_999_999_999_999;

/// Numerators, denominators, and whether they make a period.
const PERIODS: [(u128, u128, bool); 8] = [
    (1, 0, false),
    (0, 1, false),
    (1, 1, true),
    (999_999, 1_000_000, false),
    (1_000_000, 1_000_000, true),
    (MOST, 1, true),
    (MOST + 1, 1, false),
    (MOST, MOST, true),
];

/// A packet's time, stream and number.
pub(crate) type Packet = (u64, u32, u64);

/// The packets of two streams that follow each other, a nanosecond apart.
const IN_TURN: [Packet; 7] = [
    (0, 0, 0),
    (1, 1, 0),
    (2, 0, 1),
    (3, 1, 1),
    (4, 0, 2),
    (5, 1, 2),
    (6, 0, 3),
];

/// The packets of a stream that follows itself twice.
const COUNTING_ON: [Packet; 6] = [
    (0, 3, 0),
    (1, 3, 1),
    (2, 3, 2),
    (3, 3, 3),
    (4, 3, 4),
    (5, 3, 5),
];

/// Three bursts of two packets.
const BURSTS: [Packet; 6] = [
    (0, 0, 0),
    (1_000, 0, 1),
    (14_500, 0, 2),
    (15_500, 0, 3),
    (29_000, 0, 4),
    (30_000, 0, 5),
];

/// Those of them that the second of two cores sends.
const BURSTS_OF_SECOND: [Packet; 3] = [(1_000, 0, 1), (15_500, 0, 3), (30_000, 0, 5)];

/// The packets of a stream without an end, a thousand a second.
const ENDLESS: [Packet; 2] = [(0, 1, 0), (1_000_000, 1, 1)];

#[test]
fn the_laws_are_called(_rt: HostRuntime) {
    offsets_rise();
    runs_rise();
    entries_rise();
    chains_are_apart();
}

#[test]
fn a_period_is_at_least_one_nanosecond_and_below_its_limit(rt: HostRuntime) {
    for &(num, den, is_period) in &PERIODS {
        assert_eq!(rt; Period::new(num, den).is_some(), is_period, "{num} / {den}");
    }
}

/// The time, stream and number of a slot.
pub(crate) fn packet(slot: Slot) -> Packet {
    (slot.time, slot.stream, slot.number)
}

/// A walk sends these packets, and no others.
fn sends(rt: &impl Abort, mut walk: Walk<'_>, packets: &[Packet]) {
    for expected in packets {
        let next = walk.peek();
        assert_eq!(rt; next.map(packet), Some(*expected));
        if next.is_some() {
            walk.advance();
        }
    }
    assert!(rt; walk.peek().is_none());
}

/// A leg without a gap before its runs.
pub(crate) fn leg(stream: u32, period: Period, mode: Mode, actions: u32) -> Leg
    ensures mode { result.mode ≡ mode }
    ensures stream { result.stream ≡ stream }
{
    Leg {
        stream,
        isg: 0,
        period,
        mode,
        actions,
    }
}

/// A chain of one leg, which nothing follows.
pub(crate) fn alone(alloc: Global, leg: Leg) -> Result<ChainSpec, AllocError>
    requires { HasPackets leg.mode }
    ensures chain { IfOk result (λ chain. IsChain (chain_of chain)) }
    ensures value { IfOk result (λ chain. chain_of chain ≡ record { legs = leg ∷ []; back = None }) }
{
    Ok(ChainSpec {
        legs: vec![in alloc; leg]?,
        back: None,
    })
}

/// A chain of a burst, which follows itself.
fn again(alloc: Global, leg: Leg) -> Result<ChainSpec, AllocError>
    requires packets { HasPackets leg.mode }
    requires burst { (total : ℕ) × (leg.mode ≡ SingleBurst total) }
    ensures { IfOk result (λ chain. IsChain (chain_of chain)) }
{
    Ok(ChainSpec {
        legs: vec![in alloc; leg]?,
        back: Some(0),
    })
}

/// A chain of two bursts, which follow each other.
fn in_turn(alloc: Global, a: Leg, b: Leg) -> Result<ChainSpec, AllocError>
    requires packets { HasPackets a.mode × HasPackets b.mode }
    requires bursts { ((total : ℕ) × (a.mode ≡ SingleBurst total)) × ((total : ℕ) × (b.mode ≡ SingleBurst total)) }
    requires streams { a.stream ≢ b.stream }
    ensures { IfOk result (λ chain. IsChain (chain_of chain)) }
{
    Ok(ChainSpec {
        legs: vec![in alloc; a, b]?,
        back: Some(0),
    })
}

#[test]
fn two_streams_send_in_turn(rt: HostRuntime) -> Result<(), Fail> {
    let alloc = rt.alloc();
    let period = Period::new(1_000_000_000_000_000, 1_000_000_000_000_000).ok_or("no period")?;
    let mode = Mode::SingleBurst { total: 1 };
    let first = leg(0, period, mode, 0);
    let stopping = leg(0, period, mode, 2);
    let second = leg(1, period, mode, 0);
    let chain = in_turn(alloc, first, second)?;
    sends(&rt, Walk::start(&chain, 0, 1, 7), &IN_TURN);
    let chain = in_turn(alloc, stopping, second)?;
    sends(&rt, Walk::start(&chain, 0, 1, 1_000_000_000), &IN_TURN[..3]);
    let chain = alone(alloc, first)?;
    sends(&rt, Walk::start(&chain, 0, 1, 1_000_000_000), &IN_TURN[..1]);
    Ok(())
}

#[test]
fn a_stream_that_follows_itself_counts_on(rt: HostRuntime) -> Result<(), Fail> {
    let period = Period::new(1, 1).ok_or("no period")?;
    let leg = leg(3, period, Mode::SingleBurst { total: 2 }, 3);
    let chain = again(rt.alloc(), leg)?;
    sends(&rt, Walk::start(&chain, 0, 1, 1_000_000_000), &COUNTING_ON);
    Ok(())
}

#[test]
fn bursts_stand_a_gap_apart_on_each_core(rt: HostRuntime) -> Result<(), Fail> {
    let period = Period::new(1_000_000_000_000_000, 1_000_000_000_000).ok_or("no period")?;
    let mode = Mode::MultiBurst {
        per_burst: 2,
        ibg: 12_500,
        count: 3,
    };
    let chain = alone(rt.alloc(), leg(0, period, mode, 0))?;
    sends(&rt, Walk::start(&chain, 0, 1, 1_000_000_000), &BURSTS);
    sends(
        &rt,
        Walk::start(&chain, 1, 2, 1_000_000_000),
        &BURSTS_OF_SECOND,
    );
    Ok(())
}

#[test]
fn a_stream_without_an_end_sends_below_the_duration(rt: HostRuntime) -> Result<(), Fail> {
    let period = Period::new(1_000_000_000_000_000, 1_000_000_000).ok_or("no period")?;
    let chain = alone(rt.alloc(), leg(1, period, Mode::Continuous, 0))?;
    let walk = Walk::start(&chain, 0, 1, 1_000_001);
    assert_eq!(rt; walk.peek().map(|slot| slot.key().stream), Some(1));
    sends(&rt, walk, &ENDLESS);
    sends(&rt, Walk::start(&chain, 0, 1, 1_000_000), &ENDLESS[..1]);
    Ok(())
}
