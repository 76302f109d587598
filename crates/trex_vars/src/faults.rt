// What is wrong with a variable.

ghost use Rattle.std.specs.Prelude.{◌≡◌, IsFalse, IsTrue, MatchResult, None, Some, nat_lt};
ghost use Rattle.std.specs.List.{list_any};
ghost use Rattle.trex_vars.specs.Check.{fault_of, has_init_fault, has_limit_fault, has_list_fault, has_order_fault, has_size_fault, has_wide_fault, is_size, widest};
ghost use Rattle.trex_vars.specs.Variable.{variable_of};

use crate::spec::{Op, VarSpec};

/// The most values that a list may have.
const MOST_VALUES: usize = 4096;

/// What is wrong with a variable, in the order in which it is looked for.
#[derive(Clone, Copy, PartialEq, Eq, Debug, Drop)]
pub enum VarFault {
    /// A size other than 1, 2, 4 or 8 bytes.
    Size,
    /// A greatest value or a value of a list that needs more bytes than the size.
    Wide,
    /// A lower end above its upper end.
    Order,
    /// A counter that goes up or down and begins outside its range.
    Init,
    /// A list of no value, or of more than 4,096.
    List,
    /// Random numbers with a limit of 0.
    Limit,
}

/// Whether a variable may be used: the first fault that it has, if it has one.
pub fn check(spec: &VarSpec) -> Result<(), VarFault>
    ensures { MatchResult result (λ _. fault_of (variable_of spec.now) ≡ None) (λ fault. fault_of (variable_of spec.now) ≡ Some fault) }
{
    if has_size_fault(spec) {
        Err(VarFault::Size)
    } else if has_wide_fault(spec) {
        Err(VarFault::Wide)
    } else if has_order_fault(spec) {
        Err(VarFault::Order)
    } else if has_init_fault(spec) {
        Err(VarFault::Init)
    } else if has_list_fault(spec) {
        Err(VarFault::List)
    } else if has_limit_fault(spec) {
        Err(VarFault::Limit)
    } else {
        Ok(())
    }
}

/// Whether a variable may have this size.
fn is_size(size: u8) -> bool
    ensures { result ≡ is_size size }
{
    matches!(size, 1 | 2 | 4 | 8)
}

/// The greatest number of `size` bytes.
fn widest(size: u8) -> u64
    requires { IsTrue (is_size size) }
    ensures { result ≡ widest size }
{
    match size {
        1 => 0xff,
        2 => 0xffff,
        4 => 0xffff_ffff,
        _ => u64::MAX,
    }
}

/// Whether one of the values is above `most`.
fn is_any_above(most: u64, values: &[u64]) -> bool
    ensures { result ≡ list_any (nat_lt most) values.now }
{
    values.iter().any(|value| most < *value)
}

/// Whether the size is other than 1, 2, 4 or 8 bytes. A tuple has no size of its own.
fn has_size_fault(spec: &VarSpec) -> bool
    ensures { result ≡ has_size_fault (variable_of spec.now) }
{
    match spec {
        VarSpec::Counter { size, .. }
        | VarSpec::RandLimit { size, .. }
        | VarSpec::List { size, .. } => !is_size(*size),
        VarSpec::Tuple { .. } => false,
    }
}

/// Whether the greatest value, or a value of the list, needs more bytes than the size.
fn has_wide_fault(spec: &VarSpec) -> bool
    requires { IsFalse (has_size_fault (variable_of spec.now)) }
    ensures { result ≡ has_wide_fault (variable_of spec.now) }
{
    match spec {
        VarSpec::Counter { size, max, .. } | VarSpec::RandLimit { size, max, .. } => widest(*size)
            < *max,
        VarSpec::List { size, values, .. } => is_any_above(widest(*size), values),
        VarSpec::Tuple { .. } => false,
    }
}

/// Whether a lower end is above its upper end.
fn has_order_fault(spec: &VarSpec) -> bool
    ensures { result ≡ has_order_fault (variable_of spec.now) }
{
    match spec {
        VarSpec::Counter { min, max, .. } | VarSpec::RandLimit { min, max, .. } => max < min,
        VarSpec::List { .. } => false,
        VarSpec::Tuple {
            ip_min,
            ip_max,
            port_min,
            port_max,
            ..
        } => ip_max < ip_min || port_max < port_min,
    }
}

/// Whether a counter that goes up or down begins outside its range.
fn has_init_fault(spec: &VarSpec) -> bool
    ensures { result ≡ has_init_fault (variable_of spec.now) }
{
    match spec {
        VarSpec::Counter {
            op: Op::Inc | Op::Dec,
            init,
            min,
            max,
            ..
        } => init < min || max < init,
        _ => false,
    }
}

/// Whether a list has no value, or too many.
fn has_list_fault(spec: &VarSpec) -> bool
    ensures { result ≡ has_list_fault (variable_of spec.now) }
{
    match spec {
        VarSpec::List { values, .. } => values.is_empty() || values.len() > MOST_VALUES,
        _ => false,
    }
}

/// Whether random numbers have a limit of 0.
fn has_limit_fault(spec: &VarSpec) -> bool
    ensures { result ≡ has_limit_fault (variable_of spec.now) }
{
    matches!(spec, VarSpec::RandLimit { limit: 0, .. })
}
