// Some of the packets that wait, one after another.

use crate::waiting::Waiting;

/// The first packets that wait, and their records.
#[derive(Clone, Copy, Drop)]
pub struct Run<'w> {
    /// What is known of each packet.
    pub packets: &'w [Waiting],
    /// The records of the packets, as a capture has them.
    pub text: &'w [u8],
}
