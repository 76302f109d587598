//! Profiles: the rules on the values of their streams, and the chains in which the streams send.
#![tactic(auto)]

mod admission;
mod chains;
mod fault;
mod flow;
mod instructions;
mod laws;
mod member;
mod name;
mod profile;
mod raw;
mod refusal;
mod rule;
mod rules;

pub use admission::admit;
pub use fault::{AdmitFault, Fault, StreamFault};
pub use flow::Flow;
pub use laws::{profiles_can_be_walked, value_rules_in_order};
pub use member::StreamSpec;
pub use name::Name;
pub use profile::Profile;
pub use raw::{RateKind, RawInstr, RawPlace, RawProfile, RawRate, RawStream};
pub use refusal::{Breach, Refusal};
pub use rule::Rule;
