// Where a variable's places come from.

use crate::places::Places;
use crate::wheel::Wheel;
use crate::words::Words;

/// Where the places of a variable's values come from.
#[derive(Drop)]
pub(crate) enum Source {
    /// A wheel that turns from packet to packet.
    Turning(Wheel),
    /// A word for each packet, which falls on one of the places.
    Drawn(Words, Places),
}
