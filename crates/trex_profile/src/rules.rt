// The rules that a profile is looked at for: those on one stream's times, lengths and places, then those over several streams.

pub(crate) mod cross;
pub(crate) mod flows;
pub(crate) mod lengths;
pub(crate) mod places;
pub(crate) mod times;
