// The answer of the merge to what comes next.

/// What the merge does next.
#[derive(Clone, Copy, PartialEq, Eq, Debug, Drop)]
pub enum Next {
    /// The first packet of this feed is the next of all.
    Packet { feed: usize },
    /// At this core nothing waits, and it has more to come.
    Need { core: usize },
    /// As many packets were sent as may be, or nothing is left.
    End,
}
