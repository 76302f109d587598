//! The tests of the crates that read and write bytes and texts, over their public calls: one file a crate.
#![tactic(auto)]

#[cfg(test)]
mod build;
#[cfg(test)]
mod decimal;
#[cfg(test)]
mod fields;
#[cfg(test)]
mod headers;
#[cfg(test)]
mod io;
#[cfg(test)]
mod ipv6;
#[cfg(test)]
mod layers;
#[cfg(test)]
mod stamp;
#[cfg(test)]
mod sum;
#[cfg(test)]
mod vars;
#[cfg(test)]
mod words;
