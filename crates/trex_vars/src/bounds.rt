// The ends between which the values of a variable lie.

ghost use Rattle.std.specs.Prelude.{◌≡◌};
ghost use Rattle.trex_vars.specs.Bounds.{greatest, greatest_of, least, least_of};
ghost use Rattle.trex_vars.specs.Variable.{variable_of};

use crate::spec::VarSpec;
use crate::value::VarValue;

impl VarSpec {
    /// The lower end of the values; of a list its least value, 0 where it has none.
    pub fn least(&self) -> VarValue
        ensures { result ≡ least (variable_of self.now) }
    {
        match self {
            VarSpec::Counter { min, .. } | VarSpec::RandLimit { min, .. } => VarValue::One(*min),
            VarSpec::List { values, .. } => VarValue::One(least_of(values)),
            VarSpec::Tuple {
                ip_min,
                port_min,
                ..
            } => VarValue::Pair {
                ip: *ip_min,
                port: *port_min,
            },
        }
    }

    /// The upper end of the values; of a list its greatest value, 0 where it has none.
    pub fn greatest(&self) -> VarValue
        ensures { result ≡ greatest (variable_of self.now) }
    {
        match self {
            VarSpec::Counter { max, .. } | VarSpec::RandLimit { max, .. } => VarValue::One(*max),
            VarSpec::List { values, .. } => VarValue::One(greatest_of(values)),
            VarSpec::Tuple {
                ip_max,
                port_max,
                ..
            } => VarValue::Pair {
                ip: *ip_max,
                port: *port_max,
            },
        }
    }
}

/// The least of some values, 0 where there is none.
fn least_of(values: &[u64]) -> u64
    ensures { result ≡ least_of values.now }
{
    match values {
        [] => 0,
        [first, rest @ ..] => rest.iter().fold(*first, |least, value| least.min(*value)),
    }
}

/// The greatest of some values, 0 where there is none.
fn greatest_of(values: &[u64]) -> u64
    ensures { result ≡ greatest_of values.now }
{
    match values {
        [] => 0,
        [first, rest @ ..] => rest
            .iter()
            .fold(*first, |greatest, value| greatest.max(*value)),
    }
}
