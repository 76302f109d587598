//! The order of packets, and the merge of many cores' packets into one sequence.
#![tactic(auto)]

mod feed;
mod head;
mod key;
mod merge_laws;
mod mill;
mod next;
mod order;
mod place;

pub use feed::Feed;
pub use head::Head;
pub use key::{Key, Keyed, is_before, stands_before};
pub use merge_laws::{
    any_events, events_keep_the_mill, events_keep_the_shares, frames_follow, runs_are_emissions,
    shares_are_all, what_comes_next,
};
pub use mill::Mill;
pub use next::Next;
pub use order::{least_goes_first, order_is_unique};
