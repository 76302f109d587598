// Where a text stops being a decimal.

ghost use Rattle.std.specs.Prelude.{◌≡◌};
ghost use Rattle.trex_decimal.specs.Grammar.{stop_of};

use crate::place::Place;

/// How many bytes of a text are the front of a decimal. None where the whole text is one.
#[tactic(auto, unfolding(crate::specs::Grammar::stop_of))]
pub fn stop_of(text: &[u8]) -> Option<usize>
    ensures { result ≡ stop_of text.now }
{
    let mut place = Place::Start;
    for (at, byte) in text.iter().enumerate() {
        match place.next(*byte) {
            Some(then) => place = then,
            None => return Some(at),
        }
    }
    if place.may_end() {
        None
    } else {
        Some(text.len())
    }
}
