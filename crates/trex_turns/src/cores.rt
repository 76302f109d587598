// A core's packets, and the laws called once.

ghost use Rattle.std.specs.Prelude.{◌<◌, ◌≤◌, All, IfOk, length, map};
ghost use Rattle.std.specs.Option.{ForSome};
ghost use Rattle.trex_profile.specs.Flow.{IsFlow};
ghost use Rattle.trex_profile.specs.Instruction.{instruction, IsRawInstr};
ghost use Rattle.trex_profile.specs.Stream.{IsRawStream};

use std::alloc::Global;
use std::process::Abort;
use std::test::Fail;
use trex_claims::Piece;
use trex_core::{CoreWork, Plan, batches_are_longest, plans_rise, turns_keep_packets};
use trex_io::Memory;
use trex_merge::{Feed, Head};
use trex_profile::{
    AdmitFault, Flow, Name, Profile, RateKind, RawInstr, RawPlace, RawProfile, RawRate, RawStream,
    admit,
};
use trex_sched::Mode;
use trex_stamp::Version;
use trex_vars::Op;

/// An Ethernet header.
const HEADER: [u8; 14] = [2, 0, 0, 0, 0, 2, 2, 0, 0, 0, 0, 1, 0x88, 0xb5];

/// Packets whose last byte counts: the numbers, and the bytes at the ends.
const COUNTED: [(u64, &[u8]); 6] = [
    (0, &[0x88, 0xfa]),
    (1, &[0x88, 0xfe]),
    (2, &[0x88, 0xfc]),
    (3, &[0x88, 0xfa]),
    (4, &[0x88, 0xfe]),
    (5, &[0x88, 0xfc]),
];

/// The latency header of version 1 of flow 7. The headers' layouts stand in docs/FORMATS.md.
const HEADER_1: [u8; 16] = [
    0xab, 1, 0, 7, 0, 0, 0, 1, 0, 0, 0, 0, 0x3b, 0xaa, 0x0c, 0x40,
];

/// That of version 2 of flow 70,000.
const HEADER_2: [u8; 24] = [
    0xab, 2, 0, 0, 0, 1, 0x11, 0x70, 0, 0, 0, 0, 0, 0, 0, 1, 0, 0, 0, 0, 0x3b, 0xaa, 0x0c, 0x40,
];

#[test]
fn the_laws_are_called(_rt: HostRuntime) {
    batches_are_longest();
    turns_keep_packets();
    plans_rise();
}

/// The profile of one stream.
fn admit_one(alloc: Global, stream: RawStream) -> Result<Profile, AdmitFault>
    requires { IsRawStream stream }
{
    let mut streams = Vec::new(alloc);
    streams.push(stream)?;
    admit(alloc, RawProfile { streams })
}

/// A burst of packets, 1,000 a second.
fn burst(
    alloc: Global,
    total: u32,
    template: Vec<u8>,
    flow: Option<Flow>,
    instrs: Vec<RawInstr>,
) -> Result<Profile, AdmitFault>
    requires flow { ForSome flow IsFlow }
    requires few { length instrs.items ≤ 256 }
    requires formed { All IsRawInstr (map instruction instrs.items) }
{
    let stream = RawStream {
        id: 1,
        enabled: true,
        self_start: true,
        isg: 0,
        next: None,
        action_count: 0,
        seed: 0,
        template,
        rate: RawRate {
            kind: RateKind::Pps,
            value: 1_000_000_000,
        },
        mode: Mode::SingleBurst { total },
        flow,
        instrs,
    };
    admit_one(alloc, stream)
}

/// A counter of one byte from 250 in steps of 4 to 255, and then from 250 on.
fn counter(alloc: Global) -> Result<RawInstr, Memory>
    ensures { IfOk result (λ instr. IsRawInstr (instruction instr)) }
{
    Ok(RawInstr::FlowVar {
        name: Name::of(alloc, "v")?,
        size: 1,
        op: Op::Inc,
        init: 250,
        min: 250,
        max: 255,
        step: 4,
        restart: false,
    })
}

/// Writes the counter to the last byte.
fn write(alloc: Global) -> Result<RawInstr, Memory>
    ensures { IfOk result (λ instr. IsRawInstr (instruction instr)) }
{
    Ok(RawInstr::Write {
        name: Name::of(alloc, "v")?,
        place: RawPlace::At(13),
        add: 0,
        big: true,
    })
}

/// A counter, and what writes it.
fn counting(alloc: Global) -> Result<Vec<RawInstr>, Memory>
    ensures few { IfOk result (λ instrs. length instrs.items ≤ 256) }
    ensures formed { IfOk result (λ instrs. All IsRawInstr (map instruction instrs.items)) }
{
    let mut instrs = Vec::with_capacity(alloc, 2)?;
    instrs.push_reserved(counter(alloc)?);
    instrs.push_reserved(write(alloc)?);
    Ok(instrs)
}

/// Six packets whose last byte counts.
fn counted(alloc: Global) -> Result<Profile, AdmitFault> {
    let instrs = counting(alloc)?;
    burst(alloc, 6, header(alloc)?, None, instrs)
}

/// An Ethernet header.
fn header(alloc: Global) -> Result<Vec<u8>, Memory> {
    Ok(HEADER.to_vec(alloc)?)
}

/// So many zeros.
fn zeros(alloc: Global, length: usize) -> Result<Vec<u8>, Memory> {
    Ok(vec![in alloc; 0; length]?)
}

/// So many packets of so many zeros.
fn blank(
    alloc: Global,
    total: u32,
    length: usize,
    flow: Option<Flow>,
) -> Result<Profile, AdmitFault>
    requires { ForSome flow IsFlow }
{
    burst(alloc, total, zeros(alloc, length)?, flow, Vec::new(alloc))
}

/// A packet has this number, and these bytes at its end.
fn is_packet(rt: &impl Abort, head: &Head<'_>, number: u64, end: &[u8]) {
    assert_eq!(rt; head.number, number);
    assert_eq!(rt; Some(head.time), number.checked_mul(1_000_000));
    assert!(rt; head.bytes.ends_with(end));
}

/// The next packet that waits has this number, and these bytes at its end. It is taken away.
fn sends_one(rt: &impl Abort, work: &mut CoreWork<'_>, number: u64, end: &[u8]) {
    match work.head() {
        None => panic!(rt; "no packet {number}"),
        Some(head) => {
            is_packet(rt, &head, number, end);
            work.pop();
        }
    }
}

/// Of some packets those that wait are those whose numbers leave `core` as the remainder by `cores`, and no others are to come.
fn sends(rt: &impl Abort, work: &mut CoreWork<'_>, core: u32, cores: u32, packets: &[(u64, &[u8])])
    requires { 0 < cores }
{
    for (number, end) in packets {
        if *number % u64::from(cores) == u64::from(core) {
            sends_one(rt, work, *number, end);
        }
    }
    assert!(rt; work.finished());
}

/// No packet of a core waits, and some are to come.
fn begins(rt: &impl Abort, work: &CoreWork<'_>, core: u32) {
    assert!(rt; work.head().is_none());
    assert!(rt; !work.finished());
    assert_eq!(rt; work.core(), core);
}

/// After one turn a core sends its part of these packets.
fn core_sends(
    rt: &impl Abort,
    alloc: Global,
    plan: &Plan<'_>,
    core: u32,
    cores: u32,
    packets: &[(u64, &[u8])],
) -> Result<(), Memory>
    requires core { core < cores }
    requires cores { cores ≤ 64 }
{
    let mut work = CoreWork::new(alloc, plan, core, cores)?;
    begins(rt, &work, core);
    work.turn();
    assert_eq!(rt; work.turns(), 1);
    sends(rt, &mut work, core, cores, packets);
    Ok(())
}

#[test]
fn each_core_sends_its_part_with_the_values_of_its_numbers(rt: HostRuntime) -> Result<(), Fail> {
    let alloc = rt.alloc();
    let profile = counted(alloc)?;
    let plan = Plan::new(&profile, 1_000_000_000, 0);
    core_sends(&rt, alloc, &plan, 0, 1, &COUNTED)?;
    for core in 0..3 {
        core_sends(&rt, alloc, &plan, core, 3, &COUNTED)?;
    }
    Ok(())
}

/// The second of two packets of a flow ends in a header.
fn ends_in(
    rt: &impl Abort,
    alloc: Global,
    length: usize,
    flow: Flow,
    header: &[u8],
) -> Result<(), Fail>
    requires { IsFlow flow }
{
    let profile = blank(alloc, 2, length, Some(flow))?;
    let plan = Plan::new(&profile, 1_000_000_000, 1);
    core_sends(rt, alloc, &plan, 1, 2, &[(1, header)])?;
    Ok(())
}

#[test]
fn a_latency_header_has_the_packets_number_and_its_absolute_time(
    rt: HostRuntime,
) -> Result<(), Fail> {
    let one = Flow {
        version: Version::One,
        number: 7,
    };
    ends_in(&rt, rt.alloc(), 30, one, &HEADER_1)?;
    let two = Flow {
        version: Version::Two,
        number: 70_000,
    };
    ends_in(&rt, rt.alloc(), 38, two, &HEADER_2)
}

#[test]
fn a_batch_holds_as_many_packets_as_fit(rt: HostRuntime) -> Result<(), Fail> {
    let alloc = rt.alloc();
    let profile = blank(alloc, 200, 9_216, None)?;
    let plan = Plan::new(&profile, 1_000_000_000, 0);
    let mut work = CoreWork::new(alloc, &plan, 0, 1)?;
    work.refill();
    // 1,048,576 bytes, 9,216 a packet.
    for number in 0..113 {
        sends_one(&rt, &mut work, number, &[]);
    }
    assert!(rt; work.head().is_none());
    assert!(rt; !work.finished());
    Ok(())
}
