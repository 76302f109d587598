// The places that a variable runs through from packet to packet.

ghost use Rattle.std.specs.Prelude.{◌≡◌, ◌+◌, ◌*◌, ◌<◌, None};
ghost use Rattle.trex_vars.specs.Check.{fault_of};
ghost use Rattle.trex_vars.specs.Registers.{counter_course, course_of, still};
ghost use Rattle.trex_vars.specs.Value.{back, flows};
ghost use Rattle.trex_vars.specs.Variable.{variable_of};

use crate::spec::{Op, VarSpec};

/// Places from 0 to `last`: the first at packet 0, and how far each packet goes on.
#[derive(Clone, Copy, PartialEq, Eq, Debug, Drop)]
pub(crate) struct Course {
    pub(crate) first: u64,
    pub(crate) step: u64,
    pub(crate) last: u64,
}

/// The course of a random variable, which stays at one place: its words alone go over its places.
fn still(last: u64) -> Course
    ensures { result ≡ still last }
{
    Course {
        first: 0,
        step: 0,
        last,
    }
}

impl Course {
    /// The course of a variable.
    pub(crate) fn of(spec: &VarSpec) -> Course
        requires { fault_of (variable_of spec.now) ≡ None }
        ensures { result ≡ course_of (variable_of spec.now) }
    {
        match spec {
            VarSpec::Counter {
                op,
                init,
                min,
                max,
                step,
                ..
            } => {
                // A random counter may begin below its least value.
                counter_course(*op, *max - *min, init.saturating_sub(*min), *step)
            }
            VarSpec::RandLimit { min, max, .. } => still(*max - *min),
            VarSpec::List {
                op,
                step,
                values,
                ..
            } => counter_course(*op, values.len() as u64 - 1, 0, *step),
            VarSpec::Tuple {
                ip_min,
                ip_max,
                port_min,
                port_max,
                limit,
            } => {
                let addresses = u64::from(*ip_max - *ip_min) + 1;
                let ports = u64::from(*port_max - *port_min) + 1;
                Course {
                    first: 0,
                    step: 1,
                    last: flows(addresses * ports, u64::from(*limit)) - 1,
                }
            }
        }
    }
}

/// The course of a counter over the places 0 to `last`.
fn counter_course(op: Op, last: u64, first: u64, step: u64) -> Course
    ensures { result ≡ counter_course op (last + 1) first step }
{
    match op {
        Op::Inc => Course { first, step, last },
        Op::Dec => Course {
            first,
            step: back(last, step),
            last,
        },
        Op::Random => still(last),
    }
}

/// The step up that leads where a step down does, around the places 0 to `last`.
fn back(last: u64, step: u64) -> u64
    ensures { result ≡ back (last + 1) 0 step }
{
    let places = u128::from(last) + 1;
    ((places - u128::from(step) % places) % places) as u64
}

/// How many pairs of a tuple come before the first comes again: all, or the limit where it is smaller and not 0.
fn flows(pairs: u64, limit: u64) -> u64
    ensures { result ≡ flows pairs limit }
{
    if limit == 0 || pairs < limit {
        pairs
    } else {
        limit
    }
}
