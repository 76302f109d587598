// The registers of a stream: the values of its variables, packet after packet.

ghost use Rattle.std.specs.Prelude.{◌≡◌, ◌+◌, ◌<◌, ◌≤◌, ◌^◌, All, length, map};
ghost use Rattle.trex_core.specs.Registers.{end_of, moved, shown, target_of};

use std::alloc::Global;
use std::marker::Model;
use trex_io::Memory;
use trex_vars::{Strided, VarSpec, VarValue};

/// The values of one variable at the packets of one core.
#[derive(Drop)]
pub(crate) struct Register<'p> {
    strided: Strided<'p>,
    /// Whether it goes by the packets' places in their runs, and not by their numbers.
    restarts: bool,
}

/// How a register comes to a packet.
#[derive(Clone, Copy, Drop)]
pub(crate) enum Move {
    /// It stands there.
    Stay,
    /// The packet is the core's next.
    Step,
    /// The packet is any other one, with its index.
    Seek(u64),
}

impl Move {
    /// The move from one index to another. The core's next is `cores` further.
    fn between(from: u64, to: u64, cores: u32) -> Move
        requires { from + cores < 2 ^ 64 }
        ensures { end_of result from cores ≡ to }
    {
        if from == to {
            Move::Stay
        } else if from + u64::from(cores) == to {
            Move::Step
        } else {
            Move::Seek(to)
        }
    }
}

impl Register<'_> {
    /// Moves, by one of the two moves, and answers the variable's value there.
    fn go(&mut self, by_number: Move, by_place: Move) -> VarValue
        requires { target_of by_number by_place self.old < 2 ^ 63 }
        ensures register { self.new ≡ moved by_number by_place self.old }
        ensures value { result ≡ shown self.new }
    {
        if self.restarts {
            go(&mut self.strided, by_place);
        } else {
            go(&mut self.strided, by_number);
        }
        self.strided.value()
    }
}

/// Moves to a packet. Each packet has a move for each of its variables, so the call itself would count.
#[inline(always)]
fn go(strided: &mut Strided<'_>, by: Move)
    requires { end_of by strided.old.number strided.old.cores < 2 ^ 63 }
    ensures { strided.new ≡ record strided.old { number = end_of by strided.old.number strided.old.cores } }
{
    match by {
        Move::Stay => {}
        Move::Step => strided.step(),
        Move::Seek(index) => strided.seek(index),
    }
}

/// Moves each register, and reads its value there.
fn go_all(registers: &mut [Register<'_>], values: &mut [VarValue], by_number: Move, by_place: Move)
    requires small { All (λ register. target_of by_number by_place register < 2 ^ 63) registers.old }
    requires same { length values.old ≡ length registers.old }
    ensures registers { registers.new ≡ map (moved by_number by_place) registers.old }
    ensures values { values.new ≡ map shown registers.new }
{
    for (at, register) in registers.iter_mut().enumerate() {
        values[at] = register.go(by_number, by_place);
    }
}

/// The values of a stream's variables at the packets of one core. Contracts see it as the variables, whether each restarts at each visit, the
/// number of cores, and the packet at which it stands: its number and its place in its run.
#[derive(Drop)]
pub(crate) struct Registers<'p> {
    registers: Vec<Register<'p>>,
    // what they show
    values: Vec<VarValue>,
    cores: u32,
    number: u64,
    place: u64,
}

impl<'p> Model for Registers<'p> {
    ghost use Rattle.trex_core.specs.Registers.{AreAt, Standing, restarts_of, variables_of};

    ghost Value = { Standing };

    ghost view = { λ r. record {
      variables = variables_of r.registers.items;
      restarts = restarts_of r.registers.items;
      cores = r.cores;
      number = r.number;
      place = r.place;
    } };

    ghost invariant = { λ r. AreAt r.cores r.number r.place r.registers.items r.values.items };
}

impl<'p> Registers<'p> {
    ghost use Rattle.std.specs.Prelude.{◌≡◌, ◌<◌, ◌≤◌, ◌^◌, IfOk, length, map};
    ghost use Rattle.trex_core.specs.Registers.{values_by};
    ghost use Rattle.trex_vars.specs.Variable.{variable_of};
    ghost use Rattle.trex_vm.specs.Program.{AreSound};

    /// The registers of some variables, of which it is told whether each restarts at each visit, at the first packet of core `core` of
    /// `cores`. All their memory is taken here.
    pub(crate) fn start(
        alloc: Global,
        vars: &'p [VarSpec],
        restart: &[bool],
        core: u32,
        cores: u32,
    ) -> Result<Registers<'p>, Memory>
        requires sound { AreSound (map variable_of vars.now) }
        requires all { length restart.now ≡ length vars.now }
        requires core { core < cores }
        requires cores { cores ≤ 64 }
        ensures { IfOk result (λ r. r ≡ record { variables = map variable_of vars.now; restarts = restart.now; cores = cores; number = core; place = core }) }
    {
        let mut registers = Vec::with_capacity(alloc, vars.len())?;
        let mut values = Vec::with_capacity(alloc, vars.len())?;
        for (at, spec) in vars.iter().enumerate() {
            let strided = Strided::start(spec, core, cores);
            values.push(strided.value())?;
            registers.push(Register {
                strided,
                restarts: restart[at],
            })?;
        }
        Ok(Registers {
            registers,
            values,
            cores,
            number: u64::from(core),
            place: u64::from(core),
        })
    }

    /// Goes to the packet of a number, which stands at a place in its run. A core's next packet of the same run is one step away; a variable
    /// that restarts is sought at the first packet of each run.
    pub(crate) fn go_to(&mut self, number: u64, place: u64)
        requires number { number < 2 ^ 63 }
        requires place { place < 2 ^ 63 }
        ensures { self.new ≡ record self.old { number = number; place = place } }
    {
        let by_number = Move::between(self.number, number, self.cores);
        let by_place = Move::between(self.place, place, self.cores);
        go_all(&mut self.registers, &mut self.values, by_number, by_place);
        self.number = number;
        self.place = place;
    }

    /// The values at the packet at which the registers stand.
    pub(crate) fn values(&self) -> &[VarValue]
        ensures { result.now ≡ values_by self.now self.now.number self.now.place }
    {
        &self.values
    }
}
