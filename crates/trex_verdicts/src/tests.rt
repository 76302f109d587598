//! Profiles whose texts are long or made, and what an accepted profile holds. The bytes of packets come from a second program,
//! which adds by end-around carry.

use crate::answer::write_verdict;
use std::alloc::{AllocError, Global};
use std::process::Abort;
use std::test::Fail;
use trex_io::MemSink;
use trex_json::read_profile;
use trex_profile::{Flow, Name, Profile};
use trex_sched::{ChainSpec, Leg, Mode, Period};
use trex_stamp::Version;
use trex_vars::VarSpec;

/// A packet of an Ethernet header.
const PACKET: &[u8] = br#"{"binary":"AgAAAAACAgAAAAABiLU="}"#;

/// A packet of 30 bytes.
const PACKET_30: &[u8] = br#"{"binary":"AgAAAAACAgAAAAABiLUAAAAAAAAAAAAAAAAAAAAA"}"#;

/// A packet of 38 bytes.
const PACKET_38: &[u8] = br#"{"binary":"AgAAAAACAgAAAAABiLUAAAAAAAAAAAAAAAAAAAAAAAAAAAAAAAA="}"#;

/// 60 bytes: an Ethernet header, an IPv4 header of 20 bytes at 14, and a UDP header at 34.
const PACKET_60: &[u8] =
    br#"{"binary":"AgAAAAACAgAAAAABCABFAAAuAAAAAEARAAAQAAABMAAAAQQBAAwAGgAAAAAAAAAAAAAAAAAAAAAAAAAA"}"#;

const MODE: &[u8] = br#"{"type":"single_burst","total_pkts":3,"rate":{"type":"pps","value":3}}"#;

/// The parts one behind another, with a separator between them.
fn joined(alloc: Global, separator: &[u8], parts: &[&[u8]]) -> Result<Vec<u8>, AllocError> {
    let mut text = Vec::new(alloc);
    let mut before: &[u8] = b"";
    for part in parts {
        text.extend_from_slice(before)?;
        text.extend_from_slice(part)?;
        before = separator;
    }
    Ok(text)
}

/// A text between two others.
fn between(
    alloc: Global,
    before: &[u8],
    text: &[u8],
    behind: &[u8],
) -> Result<Vec<u8>, AllocError> {
    joined(alloc, b"", &[before, text, behind])
}

/// An array of JSON texts.
fn array(alloc: Global, items: &[&[u8]]) -> Result<Vec<u8>, AllocError> {
    let items = joined(alloc, b",", items)?;
    between(alloc, b"[", &items, b"]")
}

/// The entry of a stream with further names, each with a comma behind it, a packet and a mode.
fn entry(
    alloc: Global,
    id: &[u8],
    names: &[u8],
    packet: &[u8],
    mode: &[u8],
) -> Result<Vec<u8>, AllocError> {
    let start = between(alloc, br#"{"stream_id":"#, id, br#","stream":{"#)?;
    let packet = between(alloc, br#""packet":"#, packet, b",")?;
    let mode = between(alloc, br#""mode":"#, mode, b"}}")?;
    joined(alloc, b"", &[&start, names, &packet, &mode])
}

/// A profile of one stream.
fn one(alloc: Global, names: &[u8], packet: &[u8], mode: &[u8]) -> Result<Vec<u8>, AllocError> {
    let entry = entry(alloc, b"1", names, packet, mode)?;
    between(alloc, b"[", &entry, b"]")
}

/// A packet as the base64 text of its bytes.
fn encoded(alloc: Global, text: &[u8], end: &[u8]) -> Result<Vec<u8>, AllocError> {
    joined(alloc, b"", &[br#"{"binary":""#, text, end, br#""}"#])
}

/// A packet as its layers.
fn layered(alloc: Global, layers: &[&[u8]]) -> Result<Vec<u8>, AllocError> {
    let layers = array(alloc, layers)?;
    between(alloc, br#"{"layers":"#, &layers, b"}")
}

/// The name of a stream's instructions, with a comma behind it.
fn program(alloc: Global, instructions: &[&[u8]]) -> Result<Vec<u8>, AllocError> {
    let instructions = array(alloc, instructions)?;
    between(alloc, br#""vm":{"instructions":"#, &instructions, b"},")
}

/// Compares the verdict on a text.
fn assert_verdict<R: Abort>(
    rt: &R,
    alloc: Global,
    text: &[u8],
    expected: &[u8],
) -> Result<(), Fail> {
    let mut line = MemSink::new(alloc, 80, 80, Vec::new(alloc))?;
    write_verdict(alloc, &mut line, text)?;
    assert_eq!(rt; line.bytes(), expected);
    Ok(())
}

/// The profile that a text is.
fn profile_of(alloc: Global, text: &[u8]) -> Result<Profile, Fail> {
    Ok(read_profile(alloc, text)?)
}

/// An entry, an instruction, a layer or a mode of the wrong kind.
const NUMBER: &[u8] = b"1";

const MANY_ENTRIES: [(usize, &[u8]); 2] = [
    (4_096, b"refused: BadEntry stream 0\n"),
    (4_097, b"refused: TooManyStreams\n"),
];

#[test]
fn the_lengths_of_texts_and_arrays_end(rt: HostRuntime) -> Result<(), Fail> {
    let alloc = rt.alloc();
    let spaces = vec![in alloc; b' '; 33_554_433]?;
    assert_verdict(&rt, alloc, &spaces, b"refused: TooLong\n")?;
    for &(count, expected) in &MANY_ENTRIES {
        let entries = vec![in alloc; NUMBER; count]?;
        let text = array(alloc, &entries)?;
        assert_verdict(&rt, alloc, &text, expected)?;
    }
    Ok(())
}

const FIX: &[u8] = br#"{"type":"fix_checksum_ipv4","pkt_offset":14}"#;

const AT_FIELD: &[u8] = br#"{"type":"write_flow_var","name":"v","pkt_offset":"IP.src"}"#;

/// How many fixes, the instruction behind them, and the verdict.
const MANY_INSTRUCTIONS: [(usize, &[u8], &[u8]); 5] = [
    (255, FIX, b"accepted streams 1\n"),
    (255, NUMBER, b"refused: BadInstruction stream 0 at 255\n"),
    (256, NUMBER, b"refused: TooManyInstructions stream 0\n"),
    (256, AT_FIELD, b"refused: TooManyInstructions stream 0\n"),
    (255, AT_FIELD, b"refused: UnknownVariable stream 0 at 255\n"),
];

#[test]
fn there_are_at_most_256_instructions(rt: HostRuntime) -> Result<(), Fail> {
    let alloc = rt.alloc();
    for &(count, last, expected) in &MANY_INSTRUCTIONS {
        let mut instructions = vec![in alloc; FIX; count]?;
        instructions.push(last)?;
        let names = program(alloc, &instructions)?;
        let text = one(alloc, &names, PACKET_60, MODE)?;
        assert_verdict(&rt, alloc, &text, expected)?;
    }
    Ok(())
}

const ETHERNET: &[u8] =
    br#"{"type":"Ethernet","dst":"02:00:00:00:00:02","src":"02:00:00:00:00:01"}"#;

const TAG: &[u8] = br#"{"type":"Vlan","tci":7}"#;

const UDP: &[u8] = br#"{"type":"Udp","sport":1025,"dport":12}"#;

/// A packet of an Ethernet header and two other layers.
fn behind_ethernet(alloc: Global, second: &[u8], third: &[u8]) -> Result<Vec<u8>, AllocError> {
    layered(alloc, &[ETHERNET, second, third])
}

/// A packet of an Ethernet header, another layer, and so many zeros, a multiple of four, of base64.
fn loaded(alloc: Global, second: &[u8], zeros: usize) -> Result<Vec<u8>, AllocError> {
    let load = vec![in alloc; b'A'; zeros]?;
    let raw = between(alloc, br#"{"type":"Raw","binary":""#, &load, br#""}"#)?;
    behind_ethernet(alloc, second, &raw)
}

/// A layer behind Ethernet, how many zeros of base64 come behind it, three bytes for four of them, the mode, and the verdict.
const LONG_LAYERS: [(&[u8], usize, &[u8], &[u8]); 5] = [
    (TAG, 12_264, MODE, b"accepted streams 1\n"),
    (TAG, 12_264, NUMBER, b"refused: BadMode stream 0\n"),
    (TAG, 12_268, NUMBER, b"refused: LayersTooLong stream 0\n"),
    (UDP, 12_268, MODE, b"refused: LayerOrder stream 0 at 1\n"),
    (NUMBER, 12_268, MODE, b"refused: BadLayer stream 0 at 1\n"),
];

#[test]
fn the_length_of_layers_is_looked_at_after_their_order_and_before_the_mode(
    rt: HostRuntime,
) -> Result<(), Fail> {
    let alloc = rt.alloc();
    for &(second, zeros, mode, expected) in &LONG_LAYERS {
        let packet = loaded(alloc, second, zeros)?;
        let text = one(alloc, b"", &packet, mode)?;
        assert_verdict(&rt, alloc, &text, expected)?;
    }
    Ok(())
}

/// What stands behind 9,216 bytes, the mode, and the verdict.
const LONG_PACKETS: [(&[u8], &[u8], &[u8]); 2] = [
    (
        b"",
        br#"{"type":"single_burst","total_pkts":1,"rate":{"type":"pps","value":0.000001}}"#,
        b"accepted streams 1\n",
    ),
    (
        b"AA==",
        br#"{"type":"single_burst","total_pkts":1,"rate":{"type":"pps","value":0}}"#,
        b"refused: BadLength stream 0\n",
    ),
];

#[test]
fn a_packet_has_at_most_9216_bytes(rt: HostRuntime) -> Result<(), Fail> {
    let alloc = rt.alloc();
    let most = vec![in alloc; b'A'; 12_288]?;
    for &(end, mode, expected) in &LONG_PACKETS {
        let packet = encoded(alloc, &most, end)?;
        let text = one(alloc, b"", &packet, mode)?;
        assert_verdict(&rt, alloc, &text, expected)?;
    }
    Ok(())
}

/// The Ethernet header of ETHERNET up to its type.
const STATIONS: &[u8] = b"\x02\x00\x00\x00\x00\x02\x02\x00\x00\x00\x00\x01";

const IPV4: &[u8] = br#"{"type":"Ipv4","src":"16.0.0.1","dst":"48.0.0.1"}"#;

const SECOND_TAG: &[u8] = br#"{"type":"Vlan","tci":8}"#;

const TCP: &[u8] = br#"{"type":"Tcp","sport":1025,"dport":12}"#;

const PAYLOAD: &[u8] = br#"{"type":"Raw","binary":[1,2,3]}"#;

const FULL_IPV4: &[u8] =
    br#"{"type":"Ipv4","tos":255,"id":65535,"frag":16384,"ttl":1,"proto":0,"src":"192.168.0.99","dst":"1.2.3.255"}"#;

const FULL_TCP: &[u8] =
    br#"{"type":"Tcp","sport":65535,"dport":0,"seq":4294967295,"ack":7,"flags":255,"window":1}"#;

const TWO_ZEROS: &[u8] = br#"{"type":"Raw","binary":"AAA="}"#;

const TWENTY_ZEROS: &[u8] = br#"{"type":"Raw","binary":"AAAAAAAAAAAAAAAAAAAAAAAAAAA="}"#;

/// Layers, and the bytes of their packet behind its stations.
const DEFAULTS: [(&[&[u8]], &[u8]); 7] = [
    (&[ETHERNET], b"\x88\xb5"),
    (&[ETHERNET, TAG], b"\x81\x00\x00\x07\x88\xb5"),
    (
        &[ETHERNET, IPV4],
        b"\x08\x00\x45\x00\x00\x14\x00\x00\x00\x00\x40\xfd\x39\xec\x10\x00\x00\x01\x30\x00\x00\x01",
    ),
    (
        &[ETHERNET, IPV4, UDP, TWO_ZEROS],
        b"\x08\x00\x45\x00\x00\x1e\x00\x00\x00\x00\x40\x11\x3a\xce\x10\x00\x00\x01\x30\x00\x00\x01\x04\x01\x00\x0c\x00\x0a\xbb\xcb\x00\x00",
    ),
    (
        &[ETHERNET, IPV4, UDP, TWENTY_ZEROS],
        b"\x08\x00\x45\x00\x00\x30\x00\x00\x00\x00\x40\x11\x3a\xbc\x10\x00\x00\x01\x30\x00\x00\x01\x04\x01\x00\x0c\x00\x1c\xbb\xa7\x00\x00\x00\x00\x00\x00\x00\x00\x00\x00\x00\x00\x00\x00\x00\x00\x00\x00\x00\x00",
    ),
    (
        &[ETHERNET, TAG, SECOND_TAG, IPV4, TCP, PAYLOAD],
        b"\x81\x00\x00\x07\x81\x00\x00\x08\x08\x00\x45\x00\x00\x2b\x00\x00\x00\x00\x40\x06\x3a\xcc\x10\x00\x00\x01\x30\x00\x00\x01\x04\x01\x00\x0c\x00\x00\x00\x00\x00\x00\x00\x00\x50\x02\x20\x00\x47\xcf\x00\x00\x01\x02\x03",
    ),
    (
        &[ETHERNET, FULL_IPV4, FULL_TCP],
        b"\x08\x00\x45\xff\x00\x28\xff\xff\x40\x00\x01\x06\xb2\xc5\xc0\xa8\x00\x63\x01\x02\x03\xff\xff\xff\x00\x00\xff\xff\xff\xff\x00\x00\x00\x07\x50\xff\x00\x01\xe8\xd1\x00\x00",
    ),
];

#[test]
fn names_that_are_absent_have_their_defaults(rt: HostRuntime) -> Result<(), Fail> {
    let alloc = rt.alloc();
    for &(layers, expected) in &DEFAULTS {
        let packet = layered(alloc, layers)?;
        let text = one(alloc, b"", &packet, MODE)?;
        let profile = profile_of(alloc, &text)?;
        assert!(rt; profile.len() == 1);
        let template = profile.stream(0).template.as_slice();
        let found = template.strip_prefix(STATIONS).ok_or("other stations")?;
        assert_eq!(rt; found, expected);
    }
    Ok(())
}

/// The leg of a profile that has one chain of one.
fn only_leg(profile: &Profile) -> Result<&Leg, Fail> {
    let [chain] = profile.chains() else {
        return Err(Fail::from("not one chain"));
    };
    let [leg] = chain.legs.as_slice() else {
        return Err(Fail::from("not one leg"));
    };
    Ok(leg)
}

#[test]
fn a_burst_is_read(rt: HostRuntime) -> Result<(), Fail> {
    let alloc = rt.alloc();
    let names = br#""isg":"12.3456","action_count":"7","#;
    let profile = profile_of(alloc, &one(alloc, names, PACKET, MODE)?)?;
    assert_eq!(rt; profile.len(), 1);
    let leg = only_leg(&profile)?;
    assert_eq!(rt; leg.stream, 0);
    assert_eq!(rt; leg.isg, 12_345);
    assert_eq!(rt;
        Some(leg.period),
        Period::new(1_000_000_000_000_000, 3_000_000)
    );
    assert_eq!(rt; leg.mode, Mode::SingleBurst { total: 3 });
    assert_eq!(rt; leg.actions, 7);
    Ok(())
}

const WITHOUT_CHAIN: [&[u8]; 2] = [br#""enabled":false,"#, br#""self_start":false,"#];

#[test]
fn a_stream_starts_a_chain_where_it_is_enabled_and_starts_by_itself(
    rt: HostRuntime,
) -> Result<(), Fail> {
    let alloc = rt.alloc();
    for &names in &WITHOUT_CHAIN {
        let profile = profile_of(alloc, &one(alloc, names, PACKET, MODE)?)?;
        assert_eq!(rt; profile.chains().len(), 0);
    }
    Ok(())
}

/// The rate of a burst of two packets of 14 bytes, and its period as numerator and denominator. A packet counts as 144 bits with its check
/// sequence, and as 304 with preamble and gap too, so it takes 1,000 ns.
const RATES: [(&[u8], u128, u128); 2] = [
    (
        br#"{"type":"single_burst","total_pkts":2,"rate":{"type":"bps_L2","value":144000000}}"#,
        144_000_000_000_000_000,
        144_000_000_000_000,
    ),
    (
        br#"{"type":"single_burst","total_pkts":2,"rate":{"type":"bps_L1","value":304000000}}"#,
        304_000_000_000_000_000,
        304_000_000_000_000,
    ),
];

#[test]
fn a_rate_in_bits_gives_a_period(rt: HostRuntime) -> Result<(), Fail> {
    let alloc = rt.alloc();
    for &(mode, num, den) in &RATES {
        let profile = profile_of(alloc, &one(alloc, b"", PACKET, mode)?)?;
        assert_eq!(rt; profile.len(), 1);
        let period = only_leg(&profile)?.period;
        assert_eq!(rt; Some(period), Period::new(num, den));
    }
    Ok(())
}

#[test]
fn a_name_is_its_text(rt: HostRuntime) -> Result<(), Fail> {
    let name = Name::of(rt.alloc(), "t.port")?;
    assert_eq!(rt; name.text(), "t.port");
    Ok(())
}

const COUNTER: &[u8] =
    br#"{"type":"flow_var","name":"v","size":1,"op":"inc","init_value":250,"min_value":250,"max_value":255,"step":4}"#;

const WRITE: &[u8] = br#"{"type":"write_flow_var","name":"v","pkt_offset":13}"#;

const RESTARTING: &[u8] =
    br#"{"type":"flow_var_rand_limit","name":"w","size":1,"limit":3,"restart":true}"#;

/// Further names, a packet, its length, and the flow.
const STREAMS: [(&[u8], &[u8], usize, Option<Flow>); 3] = [
    (br#""random_seed":5,"#, PACKET, 14, None),
    (
        br#""random_seed":5,"flow_stats":{"enabled":true,"rule_type":"latency","stream_id":3},"#,
        PACKET_30,
        30,
        Some(Flow {
            version: Version::One,
            number: 3,
        }),
    ),
    (
        br#""random_seed":5,"flow_stats":{"enabled":true,"rule_type":"latency","stream_id":70000,"version":2},"#,
        PACKET_38,
        38,
        Some(Flow {
            version: Version::Two,
            number: 70_000,
        }),
    ),
];

#[test]
fn a_stream_has_its_variables_and_its_flow(rt: HostRuntime) -> Result<(), Fail> {
    let alloc = rt.alloc();
    let vm = program(alloc, &[COUNTER, WRITE, RESTARTING])?;
    for &(names, packet, length, flow) in &STREAMS {
        let names = between(alloc, names, &vm, b"")?;
        let profile = profile_of(alloc, &one(alloc, &names, packet, MODE)?)?;
        assert_eq!(rt; profile.len(), 1);
        let stream = profile.stream(0);
        assert_eq!(rt; stream.flow, flow);
        assert_eq!(rt; stream.template.len(), length);
        assert_eq!(rt; stream.vars.len(), 2);
        assert_eq!(rt; stream.restart.as_slice(), [false, true].as_slice());
        let VarSpec::Counter { seed, position, .. } = &stream.vars[0] else {
            return Err(Fail::from("no counter"));
        };
        assert_eq!(rt; *seed, 5);
        assert_eq!(rt; *position, 0);
    }
    Ok(())
}

const NOT_ENABLED: &[u8] = br#""enabled":false,"#;

const QUIET: &[u8] = br#""self_start":false,"#;

const THEN_2: &[u8] = br#""self_start":false,"next_stream_id":2,"#;

const THEN_3: &[u8] = br#""next_stream_id":3,"#;

const BEHIND_THEN_3: &[u8] = br#""self_start":false,"next_stream_id":3,"#;

/// The names of three streams, the streams that their one chain visits, and the place in it from which it begins again.
const CHAINS: [([&[u8]; 3], &[u32], Option<u32>); 4] = [
    (
        [br#""next_stream_id":1,"#, NOT_ENABLED, NOT_ENABLED],
        &[0],
        Some(0),
    ),
    (
        [br#""next_stream_id":2,"#, NOT_ENABLED, NOT_ENABLED],
        &[0],
        None,
    ),
    ([THEN_3, QUIET, THEN_2], &[0, 2, 1], None),
    ([THEN_3, BEHIND_THEN_3, THEN_2], &[0, 2, 1], Some(1)),
];

/// A profile of three streams with further names.
fn three(alloc: Global, names: &[&[u8]; 3]) -> Result<Vec<u8>, AllocError> {
    let first = entry(alloc, b"1", names[0], PACKET, MODE)?;
    let second = entry(alloc, b"2", names[1], PACKET, MODE)?;
    let third = entry(alloc, b"3", names[2], PACKET, MODE)?;
    array(alloc, &[&first, &second, &third])
}

/// The streams that a chain visits.
fn visits(alloc: Global, chain: &ChainSpec) -> Result<Vec<u32>, AllocError> {
    chain.legs.iter().map(|leg| leg.stream).collect(alloc)
}

#[test]
fn chains_visit_streams_in_the_order_in_which_they_follow(rt: HostRuntime) -> Result<(), Fail> {
    let alloc = rt.alloc();
    for (names, streams, back) in &CHAINS {
        let profile = profile_of(alloc, &three(alloc, names)?)?;
        assert_eq!(rt; profile.chains().len(), 1);
        let chain = profile.chains().first().ok_or("no chain")?;
        assert_eq!(rt; chain.back, *back);
        assert_eq!(rt; visits(alloc, chain)?.as_slice(), *streams);
    }
    Ok(())
}
