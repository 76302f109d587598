// Which words a variable draws.

ghost use Rattle.std.specs.Prelude.{◌≡◌, IfSome, None};
ghost use Rattle.trex_vars.specs.Check.{fault_of};
ghost use Rattle.trex_vars.specs.Registers.{draw_at};
ghost use Rattle.trex_vars.specs.Variable.{variable_of};

use crate::spec::{Op, VarSpec};

/// Word `number` of a seed and a position.
#[derive(Clone, Copy, PartialEq, Eq, Debug, Drop)]
pub(crate) struct Draw {
    pub(crate) seed: u64,
    pub(crate) position: u32,
    pub(crate) number: u64,
}

/// The word that a variable draws at packet `n`, where it draws one.
pub(crate) fn draw_at(spec: &VarSpec, n: u64) -> Option<Draw>
    requires { fault_of (variable_of spec.now) ≡ None }
    ensures { result ≡ draw_at (variable_of spec.now) n }
{
    let number = word_number(spec, n);
    match *spec {
        VarSpec::Counter {
            op: Op::Random,
            seed,
            position,
            ..
        }
        | VarSpec::RandLimit { seed, position, .. }
        | VarSpec::List {
            op: Op::Random,
            seed,
            position,
            ..
        } => Some(Draw {
            seed,
            position,
            number,
        }),
        _ => None,
    }
}

/// The number of the word that a variable draws at packet `n`, where it draws one.
pub(crate) fn word_number(spec: &VarSpec, n: u64) -> u64
    requires { fault_of (variable_of spec.now) ≡ None }
    ensures { IfSome (draw_at (variable_of spec.now) n) (λ draw. draw.number ≡ result) }
{
    match spec {
        VarSpec::RandLimit { limit, .. } => n % *limit,
        _ => n,
    }
}
