// A number of places, and the place that a word falls on.

ghost use Rattle.std.specs.Prelude.{◌≡◌, ◌+◌, ◌*◌, ◌%◌, ◌<◌, ◌≤◌};
ghost use Rattle.trex_vars.specs.Places.{reciprocal_of};

/// The places from 0 to `last`, which may be 2^64 of them, and their reciprocal, by which a word is taken modulo their number without a
/// division.
#[derive(Clone, Copy, PartialEq, Eq, Debug, Drop)]
pub(crate) struct Places {
    last: u64,
    reciprocal: u64,
    ghost reciprocal_is: { reciprocal ≡ reciprocal_of (last + 1) },
}

impl Places {
    /// The places from 0 to `last`.
    pub(crate) fn up_to(last: u64) -> Places
        ensures { result.last ≡ last }
    {
        let places = u128::from(last) + 1;
        Places {
            last,
            reciprocal: (u128::from(u64::MAX) / places) as u64,
        }
    }

    /// How often all places fit into a word, or once less.
    fn fitting(&self, word: u64) -> u64
        ensures least { result * (self.now.last + 1) ≤ word }
        ensures most { word < (result + 2) * (self.now.last + 1) }
    {
        (u128::from(word) * u128::from(self.reciprocal) >> 64) as u64
    }

    /// A word modulo the number of places.
    pub(crate) fn within(&self, word: u64) -> u64
        ensures value { result ≡ word % (self.now.last + 1) }
        ensures within { result ≤ self.now.last }
    {
        let fitting = self.fitting(word);
        let rest = word - fitting * self.last - fitting;
        if rest <= self.last {
            rest
        } else {
            rest - self.last - 1
        }
    }
}

#[cfg(test)]
mod tests {
    use super::Places;

    /// The last place, a word, and its place: of 1, 2, 3, 7, 2^32, 2^63, 2^63 + 1, 2^64 - 1 and 2^64 places.
    const ROWS: [(u64, u64, u64); 39] = [
        (0, 0, 0),
        (0, 1, 0),
        (0, 2, 0),
        (0, 18446744073709551615, 0),
        (1, 0, 0),
        (1, 1, 1),
        (1, 2, 0),
        (1, 3, 1),
        (1, 18446744073709551615, 1),
        (2, 0, 0),
        (2, 2, 2),
        (2, 3, 0),
        (2, 4, 1),
        (2, 18446744073709551615, 0),
        (6, 0, 0),
        (6, 6, 6),
        (6, 7, 0),
        (6, 8, 1),
        (6, 18446744073709551615, 1),
        (4294967295, 0, 0),
        (4294967295, 4294967295, 4294967295),
        (4294967295, 4294967296, 0),
        (4294967295, 4294967297, 1),
        (4294967295, 18446744073709551615, 4294967295),
        (9223372036854775807, 0, 0),
        (
            9223372036854775807,
            9223372036854775807,
            9223372036854775807,
        ),
        (9223372036854775807, 9223372036854775808, 0),
        (9223372036854775807, 9223372036854775809, 1),
        (
            9223372036854775807,
            18446744073709551615,
            9223372036854775807,
        ),
        (9223372036854775808, 0, 0),
        (
            9223372036854775808,
            9223372036854775808,
            9223372036854775808,
        ),
        (9223372036854775808, 9223372036854775809, 0),
        (9223372036854775808, 9223372036854775810, 1),
        (
            9223372036854775808,
            18446744073709551615,
            9223372036854775806,
        ),
        (18446744073709551614, 0, 0),
        (
            18446744073709551614,
            18446744073709551614,
            18446744073709551614,
        ),
        (18446744073709551614, 18446744073709551615, 0),
        (18446744073709551615, 0, 0),
        (
            18446744073709551615,
            18446744073709551615,
            18446744073709551615,
        ),
    ];

    #[test]
    fn words_fall_on_their_places(rt: HostRuntime) {
        for &(last, word, place) in &ROWS {
            assert_eq!(rt;
                Places::up_to(last).within(word),
                place,
                "{word} among the places 0 to {last}"
            );
        }
    }
}
