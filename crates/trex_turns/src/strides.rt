// Each packet's time, stream after stream, on each number of cores. The times follow from the sections "Times", "Modes" and "Chains" of
// docs/MEANING.md: they were computed in Python with whole numbers, and not by trex_sched.

ghost use Rattle.std.specs.Prelude.{◌<◌, ◌≤◌, ◌^◌};
ghost use Rattle.trex_sched.specs.Chain.{chain_of, IsChain};

use std::process::Abort;
use std::test::Fail;
use trex_sched::{ChainSpec, Leg, Mode, Period, Slot, Walk};

/// A burst of 70 packets each 10 / 3 ns, 2 ns after what is before it.
const BURST: [u64; 210] = [
    2, 5, 8, 12, 15, 18, 22, 25, 28, 32, 35, 38, 42, 45, 48, 52, 55, 58, 62, 65, 68, 72, 75, 78,
    82, 85, 88, 92, 95, 98, 102, 105, 108, 112, 115, 118, 122, 125, 128, 132, 135, 138, 142, 145,
    148, 152, 155, 158, 162, 165, 168, 172, 175, 178, 182, 185, 188, 192, 195, 198, 202, 205, 208,
    212, 215, 218, 222, 225, 228, 232, 303, 306, 309, 313, 316, 319, 323, 326, 329, 333, 336, 339,
    343, 346, 349, 353, 356, 359, 363, 366, 369, 373, 376, 379, 383, 386, 389, 393, 396, 399, 403,
    406, 409, 413, 416, 419, 423, 426, 429, 433, 436, 439, 443, 446, 449, 453, 456, 459, 463, 466,
    469, 473, 476, 479, 483, 486, 489, 493, 496, 499, 503, 506, 509, 513, 516, 519, 523, 526, 529,
    533, 604, 607, 610, 614, 617, 620, 624, 627, 630, 634, 637, 640, 644, 647, 650, 654, 657, 660,
    664, 667, 670, 674, 677, 680, 684, 687, 690, 694, 697, 700, 704, 707, 710, 714, 717, 720, 724,
    727, 730, 734, 737, 740, 744, 747, 750, 754, 757, 760, 764, 767, 770, 774, 777, 780, 784, 787,
    790, 794, 797, 800, 804, 807, 810, 814, 817, 820, 824, 827, 830, 834,
];

/// Then, 1 ns after it, three bursts of 5 packets each 7 / 2 ns, 7 ns apart; and both again. The last time is below 869, the next one is 869.
const BURSTS: [u64; 37] = [
    236, 239, 243, 246, 250, 260, 263, 267, 270, 274, 284, 287, 291, 294, 298, 537, 540, 544, 547,
    551, 561, 564, 568, 571, 575, 585, 588, 592, 595, 599, 838, 841, 845, 848, 852, 862, 865,
];

/// Packets without an end each 1000 / 7 ns, from 3 ns on and below 18574, which is the time of the next one.
const ENDLESS: [u64; 130] = [
    3, 145, 288, 431, 574, 717, 860, 1003, 1145, 1288, 1431, 1574, 1717, 1860, 2003, 2145, 2288,
    2431, 2574, 2717, 2860, 3003, 3145, 3288, 3431, 3574, 3717, 3860, 4003, 4145, 4288, 4431, 4574,
    4717, 4860, 5003, 5145, 5288, 5431, 5574, 5717, 5860, 6003, 6145, 6288, 6431, 6574, 6717, 6860,
    7003, 7145, 7288, 7431, 7574, 7717, 7860, 8003, 8145, 8288, 8431, 8574, 8717, 8860, 9003, 9145,
    9288, 9431, 9574, 9717, 9860, 10003, 10145, 10288, 10431, 10574, 10717, 10860, 11003, 11145,
    11288, 11431, 11574, 11717, 11860, 12003, 12145, 12288, 12431, 12574, 12717, 12860, 13003,
    13145, 13288, 13431, 13574, 13717, 13860, 14003, 14145, 14288, 14431, 14574, 14717, 14860,
    15003, 15145, 15288, 15431, 15574, 15717, 15860, 16003, 16145, 16288, 16431, 16574, 16717,
    16860, 17003, 17145, 17288, 17431, 17574, 17717, 17860, 18003, 18145, 18288, 18431,
];

/// Bursts without an end of 66 packets each 5 / 4 ns, 3 ns apart, below 217, which would be the time of the next packet.
const ENDLESS_BURSTS: [u64; 170] = [
    0, 1, 2, 3, 5, 6, 7, 8, 10, 11, 12, 13, 15, 16, 17, 18, 20, 21, 22, 23, 25, 26, 27, 28, 30, 31,
    32, 33, 35, 36, 37, 38, 40, 41, 42, 43, 45, 46, 47, 48, 50, 51, 52, 53, 55, 56, 57, 58, 60, 61,
    62, 63, 65, 66, 67, 68, 70, 71, 72, 73, 75, 76, 77, 78, 80, 81, 85, 86, 87, 88, 90, 91, 92, 93,
    95, 96, 97, 98, 100, 101, 102, 103, 105, 106, 107, 108, 110, 111, 112, 113, 115, 116, 117, 118,
    120, 121, 122, 123, 125, 126, 127, 128, 130, 131, 132, 133, 135, 136, 137, 138, 140, 141, 142,
    143, 145, 146, 147, 148, 150, 151, 152, 153, 155, 156, 157, 158, 160, 161, 162, 163, 165, 166,
    170, 171, 172, 173, 175, 176, 177, 178, 180, 181, 182, 183, 185, 186, 187, 188, 190, 191, 192,
    193, 195, 196, 197, 198, 200, 201, 202, 203, 205, 206, 207, 208, 210, 211, 212, 213, 215, 216,
];

/// A core's packet stands at the time of its number in its stream.
fn is_due(rt: &impl Abort, slot: &Slot, core: u32, cores: u32, times: &[&[u64]])
    requires { 0 < cores }
{
    let time = times
        .get(slot.stream as usize)
        .and_then(|stream| stream.get(slot.number as usize));
    assert_eq!(rt; time, Some(&slot.time), "{core} of {cores}");
    assert_eq!(rt; slot.number % u64::from(cores), u64::from(core));
}

/// A core sends packets at their streams' times, later ones later, and at most `all`. Answers how many.
fn sent_by(
    rt: &impl Abort,
    chain: &ChainSpec,
    core: u32,
    cores: u32,
    duration: u64,
    times: &[&[u64]],
    all: usize,
) -> usize
    requires chain { IsChain (chain_of chain.now) }
    requires core { core < cores }
    requires cores { cores ≤ 64 }
    requires duration { duration ≤ 10 ^ 18 }
{
    let mut sent = 0usize;
    let mut last = None;
    let mut walk = Walk::start(chain, core, cores, duration);
    for _ in 0..all {
        let Some(slot) = walk.peek() else {
            break;
        };
        is_due(rt, &slot, core, cores, times);
        assert!(rt; last < Some(slot.time));
        last = Some(slot.time);
        sent = sent.saturating_add(1);
        walk.advance();
    }
    assert!(rt; walk.peek().is_none());
    sent
}

/// On each number of cores, core after core sends the packets whose numbers leave it as the remainder, later ones later, at their
/// streams' times, and all cores together send all of them.
fn sends_at(rt: &impl Abort, chain: &ChainSpec, duration: u64, times: &[&[u64]], all: usize)
    requires chain { IsChain (chain_of chain.now) }
    requires duration { duration ≤ 10 ^ 18 }
{
    for cores in 1..65 {
        let mut sent = 0usize;
        for core in 0..cores {
            let more = sent_by(rt, chain, core, cores, duration, times, all);
            sent = sent.saturating_add(more);
        }
        assert_eq!(rt; sent, all, "{cores}");
    }
}

#[test]
fn strides_end_with_their_bursts_and_visits(rt: HostRuntime) -> Result<(), Fail> {
    let burst = Leg {
        stream: 0,
        isg: 2,
        period: Period::new(10, 3).ok_or("no period")?,
        mode: Mode::SingleBurst { total: 70 },
        actions: 0,
    };
    let bursts = Leg {
        stream: 1,
        isg: 1,
        period: Period::new(7, 2).ok_or("no period")?,
        mode: Mode::MultiBurst {
            per_burst: 5,
            ibg: 7,
            count: 3,
        },
        actions: 0,
    };
    let chain = ChainSpec {
        legs: vec![in rt.alloc(); burst, bursts]?,
        back: Some(0),
    };
    sends_at(
        &rt,
        &chain,
        869,
        &[&BURST, &BURSTS],
        BURST.len() + BURSTS.len(),
    );
    Ok(())
}

#[test]
fn strides_end_at_the_duration(rt: HostRuntime) -> Result<(), Fail> {
    let endless = Leg {
        stream: 0,
        isg: 3,
        period: Period::new(1000, 7).ok_or("no period")?,
        mode: Mode::Continuous,
        actions: 0,
    };
    let chain = ChainSpec {
        legs: vec![in rt.alloc(); endless]?,
        back: None,
    };
    sends_at(&rt, &chain, 18_574, &[&ENDLESS], ENDLESS.len());
    let bursts = Leg {
        isg: 0,
        period: Period::new(5, 4).ok_or("no period")?,
        mode: Mode::MultiBurst {
            per_burst: 66,
            ibg: 3,
            count: 0,
        },
        ..endless
    };
    let chain = ChainSpec {
        legs: vec![in rt.alloc(); bursts]?,
        back: None,
    };
    sends_at(&rt, &chain, 217, &[&ENDLESS_BURSTS], ENDLESS_BURSTS.len());
    Ok(())
}
