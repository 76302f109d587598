// The law of variables.

ghost use Rattle.std.specs.Prelude.{◌≡◌, ℕ, None};
ghost use Rattle.trex_vars.specs.Bounds.{IsBetween, greatest, least};
ghost use Rattle.trex_vars.specs.Check.{fault_of};
ghost use Rattle.trex_vars.specs.Value.{value_at};
ghost use Rattle.trex_vars.specs.Variable.{Variable};

/// Each value of a variable without a fault lies between its least and its greatest.
pub fn values_lie_between()
    ensures { (variable : Variable) (n : ℕ) → fault_of variable ≡ None → IsBetween (least variable) (value_at variable n) (greatest variable) }
{}
