// The making of a core's packets.

ghost use Rattle.std.specs.Prelude.{◌≡◌, ◌<◌, ◌≤◌, ◌^◌, true, false, IfOk, IsSomeAnd, length, map, slice_get};
ghost use Rattle.std.specs.Option.{ForSome, option_map};
ghost use Rattle.trex_core.specs.Batches.{IsWithin, has_room_for};
ghost use Rattle.trex_core.specs.Plan.{IsSlotOf, frame_at, packet_bytes};
ghost use Rattle.trex_core.specs.Records.{with_frame};
ghost use Rattle.trex_core.specs.Registers.{values_by};
ghost use Rattle.trex_profile.specs.Flow.{IsFlow, sequence_of, stamp_with};
ghost use Rattle.trex_profile.specs.Packets.{values_of};
ghost use Rattle.trex_stamp.specs.Stamp.{IsStamp, sequence_size};

use crate::batch::Batch;
use crate::plan::Plan;
use crate::registers::Registers;
use std::alloc::Global;
use std::marker::Model;
use trex_io::Memory;
use trex_merge::Keyed;
use trex_profile::Flow;
use trex_sched::Slot;
use trex_stamp::{Stamp, Version};
use trex_vars::VarValue;

/// The most bytes that a packet has.
pub const LONGEST_PACKET: usize = trex_layers::LONGEST_PACKET;

/// What a core makes its packets with. Contracts see it as the plan.
#[derive(Drop)]
pub(crate) struct Maker<'p> {
    plan: &'p Plan<'p>,
    // those of each stream, by its position
    registers: Vec<Registers<'p>>,
}

impl<'p> Model for Maker<'p> {
    ghost use Rattle.std.specs.Prelude.{◌≡◌, map};
    ghost use Rattle.trex_core.specs.Plan.{PlanOf};
    ghost use Rattle.trex_core.specs.Registers.{values_by};
    ghost use Rattle.trex_profile.specs.Packets.{values_of};

    ghost Value = { PlanOf };

    ghost view = { λ m. m.plan.now };

    ghost invariant = { λ m. map values_by m.registers.items ≡ map values_of m.plan.now.profile };
}

impl<'p> Maker<'p> {
    /// What makes the packets of core `core` of `cores` of a plan. All its memory is taken here.
    pub(crate) fn new(
        alloc: Global,
        plan: &'p Plan<'p>,
        core: u32,
        cores: u32,
    ) -> Result<Maker<'p>, Memory>
        requires core { core < cores }
        requires cores { cores ≤ 64 }
        ensures { IfOk result (λ maker. maker ≡ plan.now) }
    {
        let registers = registers_of(alloc, plan, core, cores)?;
        Ok(Maker { plan, registers })
    }

    /// Puts a packet to a batch that has room for it, and answers whether it has.
    pub(crate) fn put(&mut self, slot: &Slot, batch: &mut Batch) -> bool
        requires slot { IsSlotOf self.old.profile slot.now }
        ensures room { result ≡ has_room_for batch.old.waiting (length (packet_bytes self.old.profile self.old.base slot.now)) }
        ensures within { IsWithin batch.old.waiting }
        ensures added { result ≡ true → batch.new ≡ with_frame (frame_at self.old.profile self.old.base slot.now) batch.old }
        ensures kept { result ≡ false → batch.new ≡ batch.old }
        ensures short { length (packet_bytes self.old.profile self.old.base slot.now) ≤ LONGEST_PACKET }
        ensures plan { self.new ≡ self.old }
    {
        put_packet(self.plan, &mut self.registers, slot, batch)
    }
}

/// The registers of each stream, by its position.
fn registers_of<'p>(
    alloc: Global,
    plan: &'p Plan<'p>,
    core: u32,
    cores: u32,
) -> Result<Vec<Registers<'p>>, Memory>
    requires core { core < cores }
    requires cores { cores ≤ 64 }
    ensures { IfOk result (λ all. map values_by all.items ≡ map values_of plan.now.profile) }
{
    let mut all = Vec::with_capacity(alloc, plan.streams())?;
    for i in 0..plan.streams() {
        let spec = plan.stream(i);
        let registers = Registers::start(alloc, &spec.vars, &spec.restart, core, cores)?;
        all.push(registers)?;
    }
    Ok(all)
}

/// Puts a packet to a batch with the registers of its stream, and answers whether there is room for it.
fn put_packet(
    plan: &Plan<'_>,
    registers: &mut [Registers<'_>],
    slot: &Slot,
    batch: &mut Batch,
) -> bool
    requires slot { IsSlotOf plan.now.profile slot.now }
    requires registers { map values_by registers.old ≡ map values_of plan.now.profile }
    ensures room { result ≡ has_room_for batch.old.waiting (length (packet_bytes plan.now.profile plan.now.base slot.now)) }
    ensures within { IsWithin batch.old.waiting }
    ensures added { result ≡ true → batch.new ≡ with_frame (frame_at plan.now.profile plan.now.base slot.now) batch.old }
    ensures kept { result ≡ false → batch.new ≡ batch.old }
    ensures short { length (packet_bytes plan.now.profile plan.now.base slot.now) ≤ LONGEST_PACKET }
    ensures registers { map values_by registers.new ≡ map values_by registers.old }
{
    let position = slot.stream as usize;
    // A stream without variables has no values, and its registers needn't be looked at.
    if plan.stream(position).vars.is_empty() {
        return put_values(plan, slot, &[], batch);
    }
    registers[position].go_to(slot.number, slot.in_run);
    put_values(plan, slot, registers[position].values(), batch)
}

/// Puts a packet to a batch with the values of its stream's variables, and answers whether there is room for it.
fn put_values(plan: &Plan<'_>, slot: &Slot, values: &[VarValue], batch: &mut Batch) -> bool
    requires slot { IsSlotOf plan.now.profile slot.now }
    requires values { IsSomeAnd (slice_get plan.now.profile slot.now.stream)
        (λ stream. values.now ≡ values_of stream slot.now.number slot.now.in_run) }
    ensures room { result ≡ has_room_for batch.old.waiting (length (packet_bytes plan.now.profile plan.now.base slot.now)) }
    ensures within { IsWithin batch.old.waiting }
    ensures added { result ≡ true → batch.new ≡ with_frame (frame_at plan.now.profile plan.now.base slot.now) batch.old }
    ensures kept { result ≡ false → batch.new ≡ batch.old }
    ensures short { length (packet_bytes plan.now.profile plan.now.base slot.now) ≤ LONGEST_PACKET }
{
    let spec = plan.stream(slot.stream as usize);
    let length = spec.program.packet_length(values);
    let stamp = stamp_of(spec.flow, slot.number, plan.time_of(slot));
    if !batch.has_room_for(length) {
        return false;
    }
    let front = &spec.template[..length];
    batch.push(slot.key(), front, &spec.program, values, stamp);
    true
}

/// The latency header of a packet, if its stream has a flow.
fn stamp_of(flow: Option<Flow>, number: u64, time: u64) -> Option<Stamp>
    requires { ForSome flow IsFlow }
    ensures value { result ≡ option_map (λ flow. stamp_with flow number time) flow }
    ensures fits { ForSome result IsStamp }
{
    let flow = flow?;
    Some(Stamp {
        version: flow.version,
        flow: flow.number,
        sequence: sequence_of(flow.version, number),
        time,
    })
}

/// The sequence of a packet in the headers of a version. Version 1 has room for 32 bits of the packet's number.
fn sequence_of(version: Version, number: u64) -> u64
    ensures value { result ≡ sequence_of version number }
    ensures fits { result < 256 ^ sequence_size version }
{
    match version {
        Version::One => number % (1 << 32),
        Version::Two => number,
    }
}
