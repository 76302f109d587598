// A stream of the sample.

ghost use Rattle.std.specs.Prelude.{◌≡◌, ◌<◌, IfOk, map, pos, true};
ghost use Rattle.trex_profile.specs.declared.raw.RawPlace.TheVariants.{At};
ghost use Rattle.trex_profile.specs.Instruction.{instruction, Write};
ghost use Rattle.trex_profile.specs.Stream.{raw_stream, IsRawStream, HasGap};
ghost use Rattle.trex_sample.specs.Sampled.{mode_by, instructions, sampled_stream};

use crate::template::template;
use crate::word::word;
use std::alloc::Global;
use trex_io::Memory;
use trex_layers::{ETHERNET_LEN, IPV4_LEN, IPV4_SOURCE_AT};
use trex_profile::{Name, RateKind, RawInstr, RawPlace, RawRate, RawStream};
use trex_sched::Mode;
use trex_vars::Op;

/// The place of the source address in an IPv4 header behind an Ethernet header.
const SOURCE_ADDRESS: u64 = (ETHERNET_LEN + IPV4_SOURCE_AT) as u64;

/// The place of the source port in a UDP header behind both.
const SOURCE_PORT: u64 = (ETHERNET_LEN + IPV4_LEN) as u64;

const MILLION: u128 = 1_000_000;

/// How a stream sends, by a word, and how much, by another.
fn mode_by(kind: u64, size: u64) -> Mode
    ensures value { result ≡ mode_by kind size }
    ensures gap { HasGap result }
{
    match kind % 3 {
        0 => Mode::Continuous,
        1 => Mode::SingleBurst {
            total: 1 + (size % 1000) as u32,
        },
        _ => Mode::MultiBurst {
            per_burst: 1 + (size % 100) as u32,
            ibg: 1000,
            count: 1 + (size % 10) as u32,
        },
    }
}

/// Writes a variable over the bytes from a place on.
fn write(alloc: Global, name: &str, place: u64) -> Result<RawInstr, Memory>
    ensures { IfOk result (λ instr. instruction instr ≡ Write name.now (At place) (pos 0) true) }
{
    Ok(RawInstr::Write {
        name: Name::of(alloc, name)?,
        place: RawPlace::At(place),
        add: 0,
        big: true,
    })
}

/// Counts the source address, draws the source port, and fixes both checksums.
fn instructions(alloc: Global) -> Result<Vec<RawInstr>, Memory>
    ensures { IfOk result (λ instrs. map instruction instrs.items ≡ instructions) }
{
    let mut instrs = Vec::with_capacity(alloc, 5)?;
    instrs.push(RawInstr::FlowVar {
        name: Name::of(alloc, "src")?,
        size: 4,
        op: Op::Inc,
        init: 268_435_457,
        min: 268_435_457,
        max: 268_435_710,
        step: 1,
        restart: false,
    })?;
    instrs.push(write(alloc, "src", SOURCE_ADDRESS)?)?;
    instrs.push(RawInstr::FlowVar {
        name: Name::of(alloc, "port")?,
        size: 2,
        op: Op::Random,
        init: 1024,
        min: 1024,
        max: 65535,
        step: 1,
        restart: false,
    })?;
    instrs.push(write(alloc, "port", SOURCE_PORT)?)?;
    instrs.push(RawInstr::FixHw {
        l2: 14,
        l3: 20,
        l4: 11,
    })?;
    Ok(instrs)
}

/// The stream at a position of the sample of a seed.
pub(crate) fn sampled_stream(alloc: Global, seed: u64, position: u32) -> Result<RawStream, Memory>
    requires { position < 256 }
    ensures value { IfOk result (λ s. raw_stream s ≡ sampled_stream seed position) }
    ensures ranges { IfOk result IsRawStream }
{
    let first = 4 * u64::from(position);
    let pad = 18 + (word(seed, first) % 1001) as u16;
    let rate = 1 + u128::from(word(seed, first + 3) % 1_000_000);
    Ok(RawStream {
        id: position + 1,
        enabled: true,
        self_start: true,
        isg: u64::from(position) * 1000,
        next: None,
        action_count: 0,
        seed: u64::from(position),
        template: template(alloc, pad)?,
        rate: RawRate {
            kind: RateKind::Pps,
            value: rate * MILLION,
        },
        mode: mode_by(word(seed, first + 1), word(seed, first + 2)),
        flow: None,
        instrs: instructions(alloc)?,
    })
}
