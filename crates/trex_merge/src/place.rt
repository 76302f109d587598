// A feed beside the key of its first packet, and the earlier of two.

ghost use Rattle.std.specs.Prelude.{◌≡◌, Some};
ghost use Rattle.trex_merge.specs.Heads.{earlier_of};

use crate::key::{Key, is_before};

/// A feed whose first packet has a key.
#[derive(Clone, Copy, Drop)]
pub struct Place {
    pub key: Key,
    pub feed: usize,
}

/// The place that comes first: the best so far, unless the other one comes before it.
pub fn earlier(best: Option<Place>, place: Place) -> Place
    ensures { Some result ≡ earlier_of best (Some place) }
{
    match best {
        Some(first) if !is_before(&place.key, &first.key) => first,
        _ => place,
    }
}
