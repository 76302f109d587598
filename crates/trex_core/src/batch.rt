// The packets that wait in a core's batch.

ghost use Rattle.std.specs.Prelude.{◌≡◌, ◌+◌, ◌*◌, ◌-◌, ◌<◌, ◌≤◌, ◌^◌, ◌++◌, ◌∷◌, ◌&&◌, List, [], nat_lt, nat_le, true, Some, IfOk, length, map, take, drop, option_map, slice_get, vec_len};
ghost use Rattle.std.specs.Option.{ForSome};
ghost use Rattle.std.specs.Vec.{vec_capacity};
ghost use Rattle.trex_core.specs.Batches.{IsWithin, has_room_for};
ghost use Rattle.trex_core.specs.Records.{frame_with, text_length, waiting_of};
ghost use Rattle.trex_core.specs.Texts.{records_text};
ghost use Rattle.trex_merge.specs.Frames.{Frame, frame_of, key_of};
ghost use Rattle.trex_merge.specs.Queues.{is_none_left};
ghost use Rattle.trex_merge.specs.Runs.{run_length};
ghost use Rattle.trex_pcap.specs.Writing.{record_of};
ghost use Rattle.trex_stamp.specs.Stamp.{IsStamp};
ghost use Rattle.trex_vm.specs.Packet.{after_all, stamped, version_of};
ghost use Rattle.trex_vm.specs.Program.{AreValuesOf, IsFrontOf};

use crate::run::Run;
use crate::waiting::Waiting;
use std::alloc::Global;
use std::marker::Model;
use trex_io::Memory;
use trex_merge::{Head, Key, stands_before};
use trex_pcap::record_header;
use trex_stamp::Stamp;
use trex_vars::VarValue;
use trex_vm::{Program, finish_packet};

/// The most packets that a batch holds.
pub const BATCH_PACKETS: usize = 4_096;

/// The most bytes that a batch holds, where those of the records' headers don't count.
pub const BATCH_BYTES: usize = 1_048_576;

/// The number of bytes of a record's header.
pub const RECORD_HEADER: usize = 16;

/// The number of bytes of a full batch with all headers.
const BATCH_TEXT: usize = BATCH_BYTES + RECORD_HEADER * BATCH_PACKETS;

const NANOSECONDS_PER_SECOND: u64 = 1_000_000_000;

/// The packets that wait in a core's batch, in order, each as its record. All its memory is taken when it is made.
#[derive(Drop)]
pub(crate) struct Batch {
    // in seconds since 1970
    base: u32,
    packets: Vec<Waiting>,
    // how many of the packets were taken away
    taken: usize,
    // their records
    text: Vec<u8>,
    // how many bytes of the records were taken away
    from: usize,
}

impl Model for Batch {
    ghost use Rattle.std.specs.Prelude.{◌≡◌, ◌≤◌, drop, length, vec_len};
    ghost use Rattle.std.specs.Vec.{vec_capacity};
    ghost use Rattle.trex_core.specs.declared.batch.TheConstants.{BATCH_PACKETS as PACKETS, BATCH_TEXT as TEXT};
    ghost use Rattle.trex_core.specs.Records.{BatchView, frames_of, AreBatch};

    ghost Value = { BatchView };

    ghost view = { λ b. record { base = b.base; waiting = frames_of (drop b.taken b.packets.items) (drop b.from b.text.items) } };

    ghost invariant = { λ b. AreBatch b.base (drop b.taken b.packets.items) (drop b.from b.text.items)
        × (b.taken ≤ vec_len b.packets) × (b.from ≤ vec_len b.text)
        × (PACKETS ≤ vec_capacity b.packets) × (TEXT ≤ vec_capacity b.text)
        × (b.base ≤ 3000000000) };
}

impl Batch {
    /// A batch in which nothing waits. The times of its records count from the base, in seconds since 1970.
    pub(crate) fn new(alloc: Global, base: u32) -> Result<Batch, Memory>
        requires { base ≤ 3000000000 }
        ensures { IfOk result (λ b. b ≡ record { base = base; waiting = [] }) }
    {
        let packets = Vec::with_capacity(alloc, BATCH_PACKETS)?;
        let text = Vec::with_capacity(alloc, BATCH_TEXT)?;
        Ok(Batch {
            base,
            packets,
            taken: 0,
            text,
            from: 0,
        })
    }

    /// Whether there is room for one more packet of so many bytes.
    pub(crate) fn has_room_for(&self, count: usize) -> bool
        ensures value { result ≡ has_room_for self.now.waiting count }
        ensures within { IsWithin self.now.waiting }
    {
        let packets = self.packets.len() - self.taken;
        let text = self.text.len() - self.from;
        is_room(packets, text - RECORD_HEADER * packets, count)
    }

    /// Adds a packet after those that wait: what a program makes of the front of its template, which is as long as the packet.
    pub(crate) fn push(
        &mut self,
        key: Key,
        front: &[u8],
        program: &Program,
        values: &[VarValue],
        stamp: Option<Stamp>,
    )
        requires room { has_room_for self.old.waiting (length front.now) ≡ true }
        requires time { key.time < 10 ^ 18 }
        requires front { IsFrontOf program.now values.now front.now }
        requires values { AreValuesOf program.now values.now }
        requires stamp { version_of stamp ≡ program.now.stamp }
        requires fits { ForSome stamp IsStamp }
        ensures { self.new ≡ record {
          base = self.old.base;
          waiting = self.old.waiting ++ frame_with key (after_all values.now program.now.instrs (stamped stamp front.now)) ∷ [];
        } }
    {
        remove_front(&mut self.packets, self.taken);
        self.taken = 0;
        remove_front(&mut self.text, self.from);
        self.from = 0;
        let length = front.len();
        self.packets.push(Waiting { key, length }).unwrap();
        let time = u64::from(self.base) * NANOSECONDS_PER_SECOND + key.time;
        add_record(&mut self.text, time, front, program, values, stamp);
    }

    /// The first packet that waits.
    pub(crate) fn head(&self) -> Option<Head<'_>>
        ensures { option_map frame_of result ≡ slice_get self.now.waiting 0 }
    {
        let key = self.first_key()?;
        Some(Head {
            time: key.time,
            stream: key.stream,
            number: key.number,
            bytes: self.first_bytes(),
        })
    }

    /// The bytes of the first packet that waits.
    fn first_bytes(&self) -> &[u8]
        requires { 0 < length self.now.waiting }
        ensures { Some result.now ≡ option_map (λ f. f.bytes) (slice_get self.now.waiting 0) }
    {
        let length = self.packets[self.taken].length;
        let text = &self.text[self.from + RECORD_HEADER..];
        &text[..length]
    }

    /// The key of the first packet that waits.
    pub(crate) fn first_key(&self) -> Option<Key>
        ensures { result ≡ option_map key_of (slice_get self.now.waiting 0) }
    {
        let first = self.packets.get(self.taken)?;
        Some(first.key)
    }

    /// Takes the first packet away.
    pub(crate) fn pop(&mut self)
        requires { 0 < length self.old.waiting }
        ensures { self.new ≡ record { base = self.old.base; waiting = drop 1 self.old.waiting } }
    {
        let length = self.packets[self.taken].length;
        self.taken += 1;
        self.from += RECORD_HEADER + length;
    }

    /// Of the packets that wait those at the front that stand before a key, or all where there is none, but at most so many.
    pub(crate) fn run_before(&self, before: Option<Key>, most: u64) -> Run<'_>
        ensures packets { result.packets.now ≡ map waiting_of (take (run_length before most self.now.waiting) self.now.waiting) }
        ensures text { result.text.now ≡ records_text self.now.base (take (run_length before most self.now.waiting) self.now.waiting) }
    {
        let packets = front_of(&self.packets[self.taken..], most);
        let (count, bytes) = measure_run(packets, before);
        let text = &self.text[self.from..];
        Run {
            packets: &packets[..count],
            text: &text[..bytes],
        }
    }

    /// Takes the first packets away, so many, whose records have so many bytes.
    pub(crate) fn drop_run(&mut self, packets: usize, bytes: usize)
        requires packets { packets ≤ length self.old.waiting }
        requires bytes { bytes ≡ length (records_text self.old.base (take packets self.old.waiting)) }
        ensures { self.new ≡ record { base = self.old.base; waiting = drop packets self.old.waiting } }
    {
        self.taken += packets;
        self.from += bytes;
    }

    /// Whether nothing waits.
    pub(crate) fn is_empty(&self) -> bool
        ensures { result ≡ is_none_left self.now.waiting }
    {
        self.packets.len() == self.taken
    }
}

/// Whether beside so many packets of so many bytes in all there is room for one more.
fn is_room(packets: usize, bytes: usize, count: usize) -> bool
    requires { bytes ≤ BATCH_BYTES }
    ensures { result ≡ (nat_lt packets BATCH_PACKETS && nat_le (bytes + count) BATCH_BYTES) }
{
    packets < BATCH_PACKETS && count <= BATCH_BYTES - bytes
}

/// Adds the record of a packet, whose absolute time is in nanoseconds, to a text that has room for it. The packet is made there, of the front of
/// its template.
fn add_record(
    text: &mut Vec<u8>,
    time: u64,
    front: &[u8],
    program: &Program,
    values: &[VarValue],
    stamp: Option<Stamp>,
)
    requires time { time < 2 ^ 32 * 10 ^ 9 }
    requires small { length front.now < 2 ^ 32 }
    requires room { vec_len text.old + (RECORD_HEADER + length front.now) ≤ vec_capacity text.old }
    requires front { IsFrontOf program.now values.now front.now }
    requires values { AreValuesOf program.now values.now }
    requires stamp { version_of stamp ≡ program.now.stamp }
    requires fits { ForSome stamp IsStamp }
    ensures items { text.new.items ≡ text.old.items
        ++ record_of (record { time = time; bytes = after_all values.now program.now.instrs (stamped stamp front.now) }) }
    ensures capacity { vec_capacity text.old ≤ vec_capacity text.new }
    ensures long { length (after_all values.now program.now.instrs (stamped stamp front.now)) ≡ length front.now }
{
    let header = record_header(time, front.len() as u32);
    text.extend_from_slice(&header).unwrap();
    let at = text.len();
    text.extend_from_slice(front).unwrap();
    finish_packet(program, values, stamp, &mut text[at..]);
}

/// The first packets, at most so many.
fn front_of(packets: &[Waiting], most: u64) -> &[Waiting]
    ensures { result.now ≡ take most packets.now }
{
    if most < packets.len() as u64 {
        &packets[..most as usize]
    } else {
        packets
    }
}

/// How many packets at the front stand before a key, or all where there is none; and how many bytes their records have.
fn measure_run(packets: &[Waiting], before: Option<Key>) -> (usize, usize)
    requires { text_length packets.now < 2 ^ 40 }
    ensures packets { (frames : List Frame) → packets.now ≡ map waiting_of frames → result.0 ≡ run_length before (length packets.now) frames }
    ensures within { result.0 ≤ length packets.now }
    ensures bytes { result.1 ≡ text_length (take result.0 packets.now) }
{
    let mut count = 0;
    let mut bytes = 0;
    for packet in packets {
        if !stands_before(&packet.key, before) {
            return (count, bytes);
        }
        count += 1;
        bytes += RECORD_HEADER + packet.length;
    }
    (count, bytes)
}

/// Takes the first n items out.
fn remove_front<T: Copy>(items: &mut Vec<T>, n: usize)
    requires { n ≤ vec_len items.old }
    ensures items { items.new.items ≡ drop n items.old.items }
    ensures len { vec_len items.new ≡ vec_len items.old - n }
    ensures capacity { vec_capacity items.new ≡ vec_capacity items.old }
{
    if n == 0 {
        return;
    }
    let len = items.len();
    items.as_mut_slice().copy_within(n..len, 0);
    items.truncate(len - n);
}
