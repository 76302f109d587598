// The report on a run.

ghost use Rattle.std.specs.Prelude.{◌≡◌, sum_by};
ghost use Rattle.std.specs.List.{flat_map};
ghost use Rattle.trex_io.specs.Texts.{Writes};
ghost use Rattle.trex_report.specs.Texts.{tally_line, total_line, report_text};

use itoa::Buffer;
use trex_io::{Failed, Sink, write_pieces};

/// How many packets of a stream were sent, and of how many bytes, record headers not counted.
#[derive(Clone, Copy, Debug, PartialEq, Eq)]
pub struct Tally {
    pub id: u32,
    pub packets: u64,
    pub bytes: u64,
}

/// Writes what was sent of a stream.
#[tactic(auto, unfolding(crate::specs::Texts::tally_line))]
fn write_tally<N: Sink>(to: &mut N, tally: &Tally) -> Result<(), Failed>
    ensures { Writes N.held N.faults to.old to.new result (tally_line tally.now) }
{
    let mut id = Buffer::new();
    let mut packets = Buffer::new();
    let mut bytes = Buffer::new();
    write_pieces(
        to,
        &[
            b"stream ",
            id.format(tally.id).as_bytes(),
            b" packets ",
            packets.format(tally.packets).as_bytes(),
            b" bytes ",
            bytes.format(tally.bytes).as_bytes(),
            b"\n",
        ],
    )
}

/// How many packets were sent in all.
fn packets_of(tallies: &[Tally]) -> u128
    ensures { result ≡ sum_by (λ t. t.packets) tallies.now }
{
    tallies.iter().map(|t| u128::from(t.packets)).sum()
}

/// How many bytes were sent in all.
fn bytes_of(tallies: &[Tally]) -> u128
    ensures { result ≡ sum_by (λ t. t.bytes) tallies.now }
{
    tallies.iter().map(|t| u128::from(t.bytes)).sum()
}

/// Writes what was sent in all.
#[tactic(auto, unfolding(crate::specs::Texts::total_line))]
fn write_total<N: Sink>(to: &mut N, packets: u128, bytes: u128) -> Result<(), Failed>
    ensures { Writes N.held N.faults to.old to.new result (total_line packets bytes) }
{
    let mut all_packets = Buffer::new();
    let mut all_bytes = Buffer::new();
    write_pieces(
        to,
        &[
            b"total",
            b" packets ",
            all_packets.format(packets).as_bytes(),
            b" bytes ",
            all_bytes.format(bytes).as_bytes(),
            b"\n",
        ],
    )
}

/// Writes a line for each stream.
fn write_tallies<N: Sink>(to: &mut N, tallies: &[Tally]) -> Result<(), Failed>
    ensures { Writes N.held N.faults to.old to.new result (flat_map tally_line tallies.now) }
{
    for tally in tallies {
        if let Err(failed) = write_tally(to, tally) {
            return Err(failed);
        }
    }
    Ok(())
}

/// Writes the report: a line for each stream, and one for all.
pub fn write_report<N: Sink>(to: &mut N, tallies: &[Tally]) -> Result<(), Failed>
    ensures { Writes N.held N.faults to.old to.new result (report_text tallies.now) }
{
    if let Err(failed) = write_tallies(to, tallies) {
        return Err(failed);
    }
    write_total(to, packets_of(tallies), bytes_of(tallies))
}
