// A place among others, from the last of which the first comes next.

ghost use Rattle.std.specs.Prelude.{◌≡◌, ◌+◌, ◌*◌, ◌%◌, ◌<◌, ◌≤◌, ◌^◌};
ghost use Rattle.trex_vars.specs.Registers.{place_at};

use crate::course::Course;

/// A place from 0 to `last`, and how far each turn goes on.
#[derive(Clone, Copy, PartialEq, Eq, Debug, Drop)]
pub(crate) struct Wheel {
    place: u64,
    stride: u64,
    last: u64,
    ghost place_within: { place ≤ last },
    ghost stride_within: { stride ≤ last },
}

impl Wheel {
    /// The wheel of a course at a packet, of which each turn goes on by so many packets as there are cores.
    pub(crate) fn at(course: Course, number: u64, cores: u32) -> Wheel
        requires { number < 2 ^ 63 }
        ensures place { result.place ≡ place_at course number }
        ensures stride { result.stride ≡ cores * course.step % (course.last + 1) }
        ensures last { result.last ≡ course.last }
    {
        let places = u128::from(course.last) + 1;
        let step = u128::from(course.step);
        Wheel {
            place: ((u128::from(course.first) + u128::from(number) * step) % places) as u64,
            stride: (u128::from(cores) * step % places) as u64,
            last: course.last,
        }
    }

    /// The place at which the wheel stands.
    pub(crate) fn place(&self) -> u64
        ensures { result ≡ self.now.place }
    {
        self.place
    }

    /// Goes on by one turn.
    pub(crate) fn turn(&mut self)
        ensures place { self.new.place ≡ (self.old.place + self.old.stride) % (self.old.last + 1) }
        ensures stride { self.new.stride ≡ self.old.stride }
        ensures last { self.new.last ≡ self.old.last }
    {
        let left = self.last - self.place;
        if self.stride <= left {
            self.place += self.stride;
        } else {
            self.place = self.stride - left - 1;
        }
    }
}
