//! The tests of captures and of what is measured of them. It has no code of its own.
#![tactic(auto)]

#[cfg(test)]
mod measure;
#[cfg(test)]
mod pcap;
#[cfg(test)]
mod stats;
#[cfg(test)]
mod wire;
