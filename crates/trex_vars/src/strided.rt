// One core's values of a variable, one after another.

ghost use Rattle.std.specs.Prelude.{◌≡◌, ◌+◌, ◌<◌, ◌≤◌, ◌^◌, None};
ghost use Rattle.trex_vars.specs.Check.{fault_of};
ghost use Rattle.trex_vars.specs.Registers.{course_of, place_of};
ghost use Rattle.trex_vars.specs.Value.{value_at};
ghost use Rattle.trex_vars.specs.Variable.{variable_of};

use crate::course::Course;
use crate::draw::{draw_at, word_number};
use crate::places::Places;
use crate::shown::value_from;
use crate::source::Source;
use crate::spec::VarSpec;
use crate::value::VarValue;
use crate::wheel::Wheel;
use crate::words::Words;
use std::marker::Model;

/// The values of a variable at the packets of one of some cores. It is seen as the variable, the number of cores and the number of the packet
/// at which it stands. It takes no memory.
#[derive(Drop)]
pub struct Strided<'p> {
    spec: &'p VarSpec,
    cores: u32,
    number: u64,
    source: Source,
}

impl<'p> Model for Strided<'p> {
    ghost use Rattle.trex_vars.specs.Stand.{Stand};
    ghost use Rattle.trex_vars.specs.Source.{IsAt};
    ghost use Rattle.trex_vars.specs.Variable.{variable_of};

    ghost Value = { Stand };

    ghost view = { λ s. record { variable = variable_of s.spec.now; cores = s.cores; number = s.number } };

    ghost invariant = { λ s. IsAt (variable_of s.spec.now) s.cores s.number s.source };
}

impl<'p> Strided<'p> {
    /// The values of core `core` of `cores`, from packet number `core` on.
    pub fn start(spec: &'p VarSpec, core: u32, cores: u32) -> Strided<'p>
        requires sound { fault_of (variable_of spec.now) ≡ None }
        requires core { core < cores }
        requires cores { cores ≤ 64 }
        ensures { result ≡ record { variable = variable_of spec.now; cores = cores; number = core } }
    {
        let course = Course::of(spec);
        let number = u64::from(core);
        let source = match draw_at(spec, number) {
            Some(draw) => Source::Drawn(Words::at(draw), Places::up_to(course.last)),
            None => Source::Turning(Wheel::at(course, number, cores)),
        };
        Strided {
            spec,
            cores,
            number,
            source,
        }
    }

    /// The place of the variable's value at this packet.
    #[inline]
    fn place(&self) -> u64
        ensures value { result ≡ place_of self.now.variable self.now.number }
        ensures within { result ≤ (course_of self.now.variable).last }
    {
        match &self.source {
            Source::Turning(wheel) => wheel.place(),
            Source::Drawn(words, places) => places.within(words.word()),
        }
    }

    /// The variable's value at this packet.
    #[inline]
    pub fn value(&self) -> VarValue
        ensures { result ≡ value_at self.now.variable self.now.number }
    {
        value_from(self.spec, self.place())
    }

    /// Goes on to the core's next packet.
    #[inline]
    pub fn step(&mut self)
        requires { self.old.number + self.old.cores < 2 ^ 63 }
        ensures { self.new ≡ record self.old { number = self.old.number + self.old.cores } }
    {
        self.number += u64::from(self.cores);
        match &mut self.source {
            Source::Turning(wheel) => wheel.turn(),
            Source::Drawn(words, _) => words.go_to(word_number(self.spec, self.number)),
        }
    }

    /// Goes to packet `n`. A random variable takes time logarithmic in the number. Rare, so it stands apart from the loop over packets.
    #[cold]
    #[inline(never)]
    pub fn seek(&mut self, n: u64)
        requires { n < 2 ^ 63 }
        ensures { self.new ≡ record self.old { number = n } }
    {
        self.number = n;
        match &mut self.source {
            Source::Turning(wheel) => *wheel = Wheel::at(Course::of(self.spec), n, self.cores),
            Source::Drawn(words, _) => words.go_to(word_number(self.spec, n)),
        }
    }
}
