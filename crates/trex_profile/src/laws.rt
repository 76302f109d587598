// The laws of the rules, and of a profile that keeps them.

ghost use Rattle.std.specs.Prelude.{◌≡◌, ◌<◌, List, None, length};
ghost use Rattle.std.specs.List.{AllByRecursion};
ghost use Rattle.trex_profile.specs.Admission.{refusal_of};
ghost use Rattle.trex_profile.specs.Chains.{chains_of};
ghost use Rattle.trex_profile.specs.Order.{first};
ghost use Rattle.trex_profile.specs.Rules.{value_rules, value_list};
ghost use Rattle.trex_profile.specs.Stream.{Stream};
ghost use Rattle.trex_sched.specs.Chain.{IsChain};
ghost use Rattle.trex_sched.specs.Walks.{HaveDistinctStreams};

/// The first broken rule on a stream's values is the first of one list, which has one rule a line.
pub fn value_rules_in_order()
    ensures { (s : Stream) → value_rules s ≡ first (value_list s) }
{}

/// The chains of a profile.
pub fn profiles_can_be_walked()
    // They can be walked together, where the profile keeps the rules.
    ensures walkable { (p : List Stream) → refusal_of p ≡ None → AllByRecursion IsChain (chains_of p) }
    ensures distinct { (p : List Stream) → refusal_of p ≡ None → HaveDistinctStreams (chains_of p) }
    // Their legs name streams of the profile.
    ensures streams { (p : List Stream) → AllByRecursion (λ chain. AllByRecursion (λ leg. leg.stream < length p) chain.legs) (chains_of p) }
{}
