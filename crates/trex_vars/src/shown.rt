// The value of a variable, from its place.

ghost use Rattle.std.specs.Prelude.{◌≡◌, ◌≤◌, None};
ghost use Rattle.trex_vars.specs.Check.{fault_of};
ghost use Rattle.trex_vars.specs.Registers.{course_of, shown};
ghost use Rattle.trex_vars.specs.Variable.{variable_of};

use crate::spec::VarSpec;
use crate::value::VarValue;

/// The value of a variable at a place.
pub(crate) fn value_from(spec: &VarSpec, place: u64) -> VarValue
    requires sound { fault_of (variable_of spec.now) ≡ None }
    requires place { place ≤ (course_of (variable_of spec.now)).last }
    ensures { result ≡ shown (variable_of spec.now) place }
{
    match spec {
        VarSpec::Counter { min, .. } | VarSpec::RandLimit { min, .. } => VarValue::One(
            *min + place,
        ),
        VarSpec::List { values, .. } => VarValue::One(values[place as usize]),
        VarSpec::Tuple {
            ip_min,
            ip_max,
            port_min,
            port_max,
            ..
        } => {
            let addresses = u64::from(*ip_max - *ip_min) + 1;
            let port = place / addresses;
            let last_port = u64::from(*port_max - *port_min);
            // For the proof that the sum below fits 16 bits.
            prove!(port <= last_port);
            VarValue::Pair {
                ip: *ip_min + (place % addresses) as u32,
                port: *port_min + port as u16,
            }
        }
    }
}
