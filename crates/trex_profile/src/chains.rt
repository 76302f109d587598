// How streams follow one another: the links, from which streams each one is reached, and the chains.

pub(crate) mod links;
pub(crate) mod reach;
pub(crate) mod visits;
