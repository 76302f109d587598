// A set of numbers as the ranges in which they lie.

ghost use Rattle.std.specs.Prelude.{◌≡◌, ℕ, ◌+◌, ◌-◌, ◌^◌, ◌<◌, ◌≤◌, [], ◌∷◌, ◌++◌, true, length, not, if◌then◌else◌, IfOk, IfSome, IfNone, OnOk, OnErr, MatchOption};
ghost use Rattle.std.specs.BTreeSet.{insert_key};
ghost use Rattle.std.specs.List.{AllByRecursion};
ghost use Rattle.std.specs.Ordering.{nat_cmp};
ghost use Rattle.trex_stats.specs.Ranges.{Ascend, Gains, IsBelow, Rises, has, joined_after, joined_before, numbers, reaches, with_tail};

use std::alloc::Global;
use std::collections::BTreeMap;
use std::marker::Model;
use trex_io::Memory;

/// A set of numbers, kept as the ranges in which they lie. Numbers that come in order take no memory.
#[derive(Drop)]
pub struct SeqRanges {
    // The first number of each range but the last one, and the last number.
    ranges: BTreeMap<u64, u64>,
    // The last range: numbers that come in order change it alone. None in the empty set.
    tail: Option<(u64, u64)>,
    count: u64,
}

impl Model for SeqRanges {
    ghost use Rattle.std.specs.Prelude.{◌≡◌, ℕ, [], List, length, IfNone};
    ghost use Rattle.trex_stats.specs.Ranges.{Ascend, numbers, with_tail};

    ghost Value = { List ℕ };

    ghost view = { λ s. numbers (with_tail s.ranges.entries s.tail) };

    ghost invariant = { λ s. Ascend 0 (with_tail s.ranges.entries s.tail) × (s.count ≡ length (numbers (with_tail s.ranges.entries s.tail)))
        × IfNone s.tail (s.ranges.entries ≡ []) };
}

impl SeqRanges {
    /// The empty set.
    pub fn new(alloc: Global) -> SeqRanges
        ensures { result ≡ [] }
    {
        SeqRanges {
            ranges: BTreeMap::new(alloc),
            tail: None,
            count: 0,
        }
    }

    /// Takes in a number, and answers whether it is new. Out of memory, the set is as before.
    pub fn insert(&mut self, number: u64) -> Result<bool, Memory>
        requires { length self.old < 2 ^ 64 - 1 }
        ensures new { IfOk result (λ new. new ≡ not (has self.old number)) }
        ensures ok { OnOk result (self.new ≡ insert_key nat_cmp self.old number) }
        ensures len { IfOk result (λ new. length self.new ≡ length self.old + (if new then 1 else 0)) }
        ensures err { OnErr result (self.new ≡ self.old) }
    {
        if let Some((first, last)) = self.tail {
            if last < number && number - last == 1 {
                self.tail = Some((first, number));
                self.count += 1;
                return Ok(true);
            }
            if first <= number && number <= last {
                return Ok(false);
            }
        }
        let new = insert_apart(&mut self.ranges, &mut self.tail, number)?;
        if new {
            self.count += 1;
        }
        Ok(new)
    }

    /// Whether the number is in the set.
    pub fn contains(&self, number: u64) -> bool
        ensures { result ≡ has self.now number }
    {
        covers(last_begun(&self.ranges, self.tail, number), number)
    }

    /// How many numbers the set has.
    pub fn count(&self) -> u64
        ensures count { result ≡ length self.now }
        ensures rise { Rises 0 self.now }
    {
        self.count
    }

    /// The greatest number of the set; None exactly where it has none.
    pub fn greatest(&self) -> Option<u64>
        ensures { MatchOption result (self.now ≡ []) (λ g. (has self.now g ≡ true) × AllByRecursion (λ y. y ≤ g) self.now) }
    {
        match self.tail {
            Some((_, last)) => Some(last),
            None => None,
        }
    }
}

/// Takes in a number that lies apart from the last range. Behind a gap it is a new last range, and the old one goes into the map. Before a
/// gap it goes in among the ranges of the map. Just before the last range, this one goes back into the map, the number goes in there, and
/// the last one then comes out again. Out of memory, the ranges are as before.
fn insert_apart(
    ranges: &mut BTreeMap<u64, u64>,
    tail: &mut Option<(u64, u64)>,
    number: u64,
) -> Result<bool, Memory>
    requires ascend { Ascend 0 (with_tail ranges.old.entries tail.old) }
    requires none { IfNone tail.old (ranges.old.entries ≡ []) }
    ensures new { IfOk result (λ new. new ≡ not (has (numbers (with_tail ranges.old.entries tail.old)) number)) }
    ensures ok { OnOk result (Gains (with_tail ranges.old.entries tail.old) (with_tail ranges.new.entries tail.new) number) }
    ensures err { OnErr result (with_tail ranges.new.entries tail.new ≡ with_tail ranges.old.entries tail.old) }
    ensures none { IfNone tail.new (ranges.new.entries ≡ []) }
{
    if let Some((first, last)) = *tail {
        if last < number && number - last > 1 {
            put_back(ranges, *tail)?;
            *tail = Some((number, number));
            return Ok(true);
        }
        if number < first && first - number > 1 {
            return insert_into(ranges, number);
        }
    }
    put_back(ranges, *tail)?;
    let answer = insert_into(ranges, number);
    *tail = take_last(ranges);
    answer
}

/// Puts the last range into the map.
fn put_back(ranges: &mut BTreeMap<u64, u64>, tail: Option<(u64, u64)>) -> Result<(), Memory>
    requires { Ascend 0 (with_tail ranges.old.entries tail) }
    ensures ok { OnOk result (ranges.new.entries ≡ with_tail ranges.old.entries tail) }
    ensures err { OnErr result (ranges.new.entries ≡ ranges.old.entries) }
{
    let Some((first, last)) = tail else {
        return Ok(());
    };
    match ranges.insert(first, last) {
        Ok(_) => Ok(()),
        Err(_) => Err(Memory),
    }
}

/// Takes the last range out of the map.
fn take_last(ranges: &mut BTreeMap<u64, u64>) -> Option<(u64, u64)>
    ensures all { with_tail ranges.new.entries result ≡ ranges.old.entries }
    ensures none { IfNone result (ranges.new.entries ≡ []) }
{
    ranges.pop_last()
}

/// The last range that begins at the number or below it, where the last of all stands beside the map.
fn last_begun(
    ranges: &BTreeMap<u64, u64>,
    tail: Option<(u64, u64)>,
    number: u64,
) -> Option<(u64, u64)>
    requires { Ascend 0 (with_tail ranges.now.entries tail) }
    ensures { IsBelow (with_tail ranges.now.entries tail) number result }
{
    let Some((first, _)) = tail else {
        return range_below(ranges, number);
    };
    if first <= number {
        return tail;
    }
    range_below(ranges, number)
}

/// Takes a number into the ranges of the map, and answers whether it is new. Out of memory, they are as before.
fn insert_into(ranges: &mut BTreeMap<u64, u64>, number: u64) -> Result<bool, Memory>
    requires { Ascend 0 ranges.old.entries }
    ensures new { IfOk result (λ new. new ≡ not (has (numbers ranges.old.entries) number)) }
    ensures ok { OnOk result (Gains ranges.old.entries ranges.new.entries number) }
    ensures err { OnErr result (ranges.new.entries ≡ ranges.old.entries) }
{
    let below = range_below(ranges, number);
    if covers(below, number) {
        return Ok(false);
    }
    put(ranges, below, number)?;
    Ok(true)
}

/// The last range that begins at the number or below it.
fn range_below(ranges: &BTreeMap<u64, u64>, number: u64) -> Option<(u64, u64)>
    requires { Ascend 0 ranges.now.entries }
    ensures { IsBelow ranges.now.entries number result }
{
    match ranges.range(..=number).next_back() {
        Some((first, last)) => Some((*first, *last)),
        None => None,
    }
}

/// Whether the last range that begins at the number or below it reaches the number.
fn covers(below: Option<(u64, u64)>, number: u64) -> bool
    ensures { result ≡ reaches below number }
{
    match below {
        Some((_, last)) => number <= last,
        None => false,
    }
}

/// Where the range that begins just after the number ends; the number itself, where none does.
fn last_of(ranges: &BTreeMap<u64, u64>, number: u64) -> u64
    requires { Ascend 0 ranges.now.entries }
    ensures { result ≡ joined_after ranges.now.entries number }
{
    match number.checked_add(1) {
        Some(next) => match ranges.get(&next) {
            Some(last) => *last,
            None => number,
        },
        None => number,
    }
}

/// Where the range that ends just before the number begins; the number itself, where none does.
fn first_of(below: Option<(u64, u64)>, number: u64) -> u64
    requires { IfSome below (λ r. r.1 < number) }
    ensures { result ≡ joined_before below number }
{
    match below {
        Some((first, last)) if last + 1 == number => first,
        _ => number,
    }
}

/// Puts a number into the ranges, joined with those that it touches. The one step that may fail comes first.
fn put(
    ranges: &mut BTreeMap<u64, u64>,
    below: Option<(u64, u64)>,
    number: u64,
) -> Result<(), Memory>
    requires ascend { Ascend 0 ranges.old.entries }
    requires below { IsBelow ranges.old.entries number below }
    requires out { IfSome below (λ r. r.1 < number) }
    ensures ok { OnOk result (Gains ranges.old.entries ranges.new.entries number) }
    ensures err { OnErr result (ranges.new.entries ≡ ranges.old.entries) }
{
    let last = last_of(ranges, number);
    let first = first_of(below, number);
    let Ok(_) = ranges.insert(first, last) else {
        return Err(Memory);
    };
    if last > number {
        ranges.remove(&(number + 1));
    }
    Ok(())
}
