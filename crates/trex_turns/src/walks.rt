// Packets of many chains in one order.

ghost use Rattle.std.specs.Prelude.{◌≢◌, IfOk, map};
ghost use Rattle.std.specs.List.{AllByRecursion};
ghost use Rattle.trex_sched.specs.Chain.{chain_of, IsChain};
ghost use Rattle.trex_sched.specs.Times.{HasPackets};
ghost use Rattle.trex_sched.specs.Walks.{HaveDistinctStreams};

use crate::sched::{Packet, alone, leg, packet};
use std::alloc::{AllocError, Global};
use std::process::Abort;
use std::test::Fail;
use trex_sched::{ChainSpec, Leg, Mode, Period, Walks};

/// Three chains of one leg each, which nothing follows.
fn three(alloc: Global, a: Leg, b: Leg, c: Leg) -> Result<[ChainSpec; 3], AllocError>
    requires packets { HasPackets a.mode × HasPackets b.mode × HasPackets c.mode }
    requires streams { (a.stream ≢ b.stream) × (a.stream ≢ c.stream) × (b.stream ≢ c.stream) }
    ensures chains { IfOk result (λ chains. AllByRecursion IsChain (map chain_of chains)) }
    ensures streams { IfOk result (λ chains. HaveDistinctStreams (map chain_of chains)) }
{
    let first = alone(alloc, a)?;
    let second = alone(alloc, b)?;
    let third = alone(alloc, c)?;
    Ok([first, second, third])
}

/// The walks send these packets, and no others.
fn send(rt: &impl Abort, mut walks: Walks<'_>, packets: &[Packet]) {
    for expected in packets {
        let next = walks.peek();
        assert_eq!(rt; next.map(packet), Some(*expected));
        assert_eq!(rt; walks.next(), next);
    }
    assert!(rt; walks.next().is_none());
}

/// The packets of three streams at two times.
const TOGETHER: [Packet; 6] = [
    (0, 3, 0),
    (0, 5, 0),
    (0, 7, 0),
    (10, 3, 1),
    (10, 5, 1),
    (10, 7, 1),
];

/// The packets of a stream each 4 ns, of one each 6 ns from 1 ns on, and of a burst from 5 ns on.
const MIXED: [Packet; 9] = [
    (0, 0, 0),
    (1, 1, 0),
    (4, 0, 1),
    (5, 2, 0),
    (6, 2, 1),
    (7, 1, 1),
    (7, 2, 2),
    (8, 0, 2),
    (12, 0, 3),
];

/// Those of them that the second of two cores sends.
const MIXED_OF_SECOND: [Packet; 4] = [(4, 0, 1), (6, 2, 1), (7, 1, 1), (12, 0, 3)];

#[test]
fn of_packets_at_one_time_the_lower_stream_goes_first(rt: HostRuntime) -> Result<(), Fail> {
    let alloc = rt.alloc();
    let period = Period::new(10, 1).ok_or("no period")?;
    let chains = three(
        alloc,
        leg(7, period, Mode::Continuous, 0),
        leg(3, period, Mode::Continuous, 0),
        leg(5, period, Mode::Continuous, 0),
    )?;
    let walks = Walks::start(alloc, &chains, 0, 1, 11)?;
    send(&rt, walks, &TOGETHER);
    Ok(())
}

/// A stream each 4 ns, one each 6 ns from 1 ns on, and a burst from 5 ns on.
fn mixed(alloc: Global) -> Result<[ChainSpec; 3], Fail>
    ensures chains { IfOk result (λ chains. AllByRecursion IsChain (map chain_of chains)) }
    ensures streams { IfOk result (λ chains. HaveDistinctStreams (map chain_of chains)) }
{
    let slow = leg(
        0,
        Period::new(4, 1).ok_or("no period")?,
        Mode::Continuous,
        0,
    );
    let later = Leg {
        isg: 1,
        ..leg(
            1,
            Period::new(6, 1).ok_or("no period")?,
            Mode::Continuous,
            0,
        )
    };
    let period = Period::new(1, 1).ok_or("no period")?;
    let burst = Leg {
        isg: 5,
        ..leg(2, period, Mode::SingleBurst { total: 3 }, 0)
    };
    Ok(three(alloc, slow, later, burst)?)
}

#[test]
fn chains_of_different_rates_go_by_time_on_each_core(rt: HostRuntime) -> Result<(), Fail> {
    let alloc = rt.alloc();
    let chains = mixed(alloc)?;
    let all = Walks::start(alloc, &chains, 0, 1, 13)?;
    send(&rt, all, &MIXED);
    let second = Walks::start(alloc, &chains, 1, 2, 13)?;
    send(&rt, second, &MIXED_OF_SECOND);
    Ok(())
}
