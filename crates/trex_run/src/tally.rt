//! What was sent of each stream is counted as the packets are reached.

ghost use Rattle.std.specs.Prelude.{◌≡◌, ℕ, ◌≤◌, [], IfOk, Some, length, slice_get};
ghost use Rattle.std.specs.List.{AllByRecursion};
ghost use Rattle.trex_merge.specs.declared.next.Next.TheVariants.{Packet as APacket};
ghost use Rattle.trex_merge.specs.Frames.{frame_of};
ghost use Rattle.trex_merge.specs.Queues.{IsLeastAt, waiting_at};
ghost use Rattle.trex_run.specs.Capture.{tallies as tallies_of};
ghost use Rattle.trex_run.specs.Ready.{CountsNext, queues_of};
ghost use Rattle.trex_run.specs.State.{IsShort};
ghost use Rattle.trex_run.specs.Tallies.{AtMostPackets, all_counted, counted};

use std::alloc::Global;
use trex_core::{CoreWork, Waiting};
use trex_io::Memory;
use trex_merge::{Feed, Head, Next};
use trex_profile::Profile;
use trex_report::Tally;

/// The tallies before anything is sent.
pub(crate) fn no_tallies(
    alloc: Global,
    profile: &Profile,
    streams: usize,
) -> Result<Vec<Tally>, Memory>
    requires { streams ≡ length profile.now }
    ensures { IfOk result (λ all. all.items ≡ tallies_of profile.now []) }
{
    let mut all = Vec::with_capacity(alloc, streams)?;
    for position in 0..streams {
        all.push(Tally {
            id: profile.stream(position).id,
            packets: 0,
            bytes: 0,
        })?;
    }
    Ok(all)
}

/// The packet that waits first at a core.
pub(crate) fn head_of<'w>(works: &'w [CoreWork<'_>], feed: usize) -> Head<'w>
    requires { IsLeastAt feed (queues_of works.now) }
    ensures { slice_get (waiting_at feed (queues_of works.now)) 0 ≡ Some (frame_of result) }
{
    works[feed].head().unwrap()
}

/// Counts one packet more, of so many bytes, for the stream at a position.
fn count(tallies: &mut [Tally], position: u32, bytes: usize)
    requires room { AtMostPackets 200000000 tallies.old }
    requires small { bytes ≤ 9216 }
    ensures { tallies.new ≡ counted tallies.old position bytes }
{
    let position = position as usize;
    if position < tallies.len() {
        let tally = tallies[position];
        tallies[position] = Tally {
            id: tally.id,
            packets: tally.packets + 1,
            bytes: tally.bytes + bytes as u64,
        };
    }
}

/// Counts some packets more.
pub(crate) fn count_all(tallies: &mut [Tally], packets: &[Waiting])
    requires room { AtMostPackets 100000000 tallies.old }
    requires few { length packets.now ≤ 100000000 }
    requires small { AllByRecursion (λ packet. packet.length ≤ 9216) packets.now }
    ensures { tallies.new ≡ all_counted tallies.old packets.now }
{
    for packet in packets {
        count(tallies, packet.key.stream, packet.length);
    }
}

/// Counts the packet that comes next, if any.
pub(crate) fn count_next(works: &[CoreWork<'_>], next: Next, tallies: &mut [Tally])
    requires least { (feed : ℕ) → next ≡ APacket feed → IsLeastAt feed (queues_of works.now) }
    requires room { AtMostPackets 100000000 tallies.old }
    requires short { (feed : ℕ) → AllByRecursion IsShort (waiting_at feed (queues_of works.now)) }
    ensures { CountsNext next (queues_of works.now) tallies.old tallies.new }
{
    match next {
        Next::Packet { feed } => {
            let head = head_of(works, feed);
            count(tallies, head.stream, head.bytes.len());
        }
        Next::Need { .. } => {}
        Next::End => {}
    }
}
