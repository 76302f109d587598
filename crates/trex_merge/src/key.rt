// What packets are ordered by, and the order.

ghost use Rattle.std.specs.Prelude.{◌≡◌};
ghost use Rattle.trex_merge.specs.Order.{is_before};
ghost use Rattle.trex_merge.specs.Runs.{stands_before};
ghost use Rattle.trex_merge.specs.declared.key.Key.{Key};

/// What a packet is ordered by: its time first, then its stream, then its number.
#[derive(Clone, Copy, PartialEq, Eq, Debug, Drop)]
pub struct Key {
    /// Nanoseconds from the schedule's zero.
    pub time: u64,
    /// The stream's position in the profile.
    pub stream: u32,
    /// The packet's number in its stream.
    pub number: u64,
}

/// A value that is ordered by a key.
pub trait Keyed {
    /// The key.
    ghost key_of: { Self → Key };

    /// The key by which the value is ordered.
    fn key(&self) -> Key
        ensures { result ≡ key_of self.now };
}

impl Keyed for Key {
    ghost key_of = { λ k. k };

    fn key(&self) -> Key {
        *self
    }
}

/// Whether a packet comes before another: by time, then by stream, then by number.
pub fn is_before(a: &Key, b: &Key) -> bool
    ensures { result ≡ is_before a.now b.now }
{
    (a.time, a.stream, a.number) < (b.time, b.stream, b.number)
}

/// Whether a packet comes before another, or there is no other.
pub fn stands_before(key: &Key, other: Option<Key>) -> bool
    ensures { result ≡ stands_before key.now other }
{
    match other {
        Some(other) => is_before(key, &other),
        None => true,
    }
}
