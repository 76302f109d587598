// The law on the order of the rules on shapes.

ghost use Rattle.std.specs.Prelude.{◌≡◌};
ghost use Rattle.serde_json.specs.Data.{Data};
ghost use Rattle.trex_profile.specs.Order.{first};
ghost use Rattle.trex_json.specs.Order.{shape_rules};
ghost use Rattle.trex_json.specs.Shape.{entry_rules};

/// Law: the first broken rule of an entry is the first of one list, which has one rule a line.
pub fn shape_rules_in_order()
    ensures { (entry : Data) → entry_rules entry ≡ first (shape_rules entry) }
{}
