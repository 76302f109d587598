// The lines of all flows, one after another.

ghost use Rattle.std.specs.Prelude.{◌≡◌};

use crate::flow::Flow;
use crate::line::{FlowLine, FlowNumber};
use std::collections::BTreeMap;
use std::collections::btree_map::Iter;
use std::marker::Model;

/// The lines of flows that are left, in rising order of number.
#[derive(Drop)]
pub struct Flows<'a> {
    left: Iter<'a, FlowNumber, Flow>,
}

impl<'a> Model for Flows<'a> {
    ghost use Rattle.std.specs.Prelude.{List};
    ghost use Rattle.trex_stats.specs.declared.line.FlowLine.{FlowLine};
    ghost use Rattle.trex_stats.specs.Counts.{lines_in};

    ghost Value = { List FlowLine };

    ghost view = { λ s. lines_in s.left };
}

impl<'a> Flows<'a> {
    ghost use Rattle.std.specs.BTreeMap.{is_at};
    ghost use Rattle.std.specs.List.{All};
    ghost use Rattle.std.specs.List.Sorted.{IsStrictlySortedBy};
    ghost use Rattle.std.specs.Map.{keys_of, lookup};
    ghost use Rattle.std.specs.Ordering.{nat_cmp};
    ghost use Rattle.trex_stats.specs.Counts.{lines_in};

    /// The lines of all flows of a map.
    pub(crate) fn over(flows: &'a BTreeMap<FlowNumber, Flow>) -> Flows<'a>
        ensures rest { result ≡ lines_in flows.now.entries }
        ensures rise { IsStrictlySortedBy nat_cmp (keys_of flows.now.entries) }
        ensures found { All (λ e. lookup (is_at (nat_cmp e.0)) flows.now.entries ≡ Some e.1) flows.now.entries }
    {
        Flows { left: flows.iter() }
    }
}

impl<'a> Iterator for Flows<'a> {
    ghost use Rattle.std.specs.Iterator.{at_most};
    ghost use Rattle.std.specs.Map.Iter.{TakesFirst};
    ghost use Rattle.trex_stats.specs.declared.line.FlowLine.{FlowLine};
    ghost use Rattle.std.specs.Prelude.{length};

    type Item = FlowLine;

    ghost next_gives = { TakesFirst (λ (line : FlowLine). line) };

    ghost remaining = { λ s. at_most (length s) };

    /// The next line, or None after the last.
    fn next(&mut self) -> Option<FlowLine> {
        let (flow, kept) = self.left.next()?;
        Some(kept.line(*flow))
    }

    fn size_hint(&self) -> (usize, Option<usize>) {
        self.left.size_hint()
    }
}
