// Sums of words, their fold, and checksums as they are written.

ghost use Rattle.std.specs.Prelude.{◌≡◌, ℕ, ◌+◌, ◌-◌, ◌*◌, ◌^◌, ◌<◌, ◌≤◌, ◌↔◌, IsTrue, length};
ghost use Rattle.trex_sum.specs.Checksum.{sum_of, word_at, fold_of, ones_for_zero, Verifies};

/// A sum that verifies folds to this, and a checksum is the rest that its words' fold leaves of it (RFC 1071, section 1).
pub const ALL_ONES: u16 = 0xffff;

/// The plain sum of the 16-bit big-endian words, an odd last byte padded with zero on the right (RFC 1071, section 1).
///
/// Nothing is folded or complemented, so the sums of parts of even length add up to the sum of the whole.
pub fn sum_words(bytes: &[u8]) -> u64
    requires { length bytes.now < 2 ^ 40 }
    ensures value { result ≡ sum_of bytes.now }
    ensures bound { result ≤ 65536 * length bytes.now }
{
    let mut total = 0;
    let mut rest = bytes;
    while rest.len() >= 8 {
        let (front, back) = rest.split_at(8);
        total += sum_four_words(front);
        rest = back;
    }
    total + sum_tail(rest)
}

/// The sum of the four words in eight bytes.
fn sum_four_words(bytes: &[u8]) -> u64
    requires { length bytes.now ≡ 8 }
    ensures value { result ≡ sum_of bytes.now }
    ensures bound { result ≤ 262140 }
{
    let word = number_of(bytes);
    (word >> 48) + (word >> 32) % 65536 + (word >> 16) % 65536 + word % 65536
}

/// The number that eight bytes spell, the first one highest.
#[inline(always)]
pub(crate) fn number_of(bytes: &[u8]) -> u64
    requires { length bytes.now ≡ 8 }
    ensures { result ≡ 2 ^ 48 * word_at bytes.now 0 + 2 ^ 32 * word_at bytes.now 2 + 2 ^ 16 * word_at bytes.now 4 + word_at bytes.now 6 }
{
    u64::from_be_bytes([
        bytes[0], bytes[1], bytes[2], bytes[3], bytes[4], bytes[5], bytes[6], bytes[7],
    ])
}

/// The sum of the last seven bytes at most: two words, one word, one byte.
#[inline(always)]
pub(crate) fn sum_tail(bytes: &[u8]) -> u64
    requires { length bytes.now < 8 }
    ensures value { result ≡ sum_of bytes.now }
    ensures bound { result ≤ 65536 * length bytes.now }
{
    let mut total = 0;
    let mut rest = bytes;
    if let [first_high, first_low, second_high, second_low, tail @ ..] = rest {
        total += word_of(*first_high, *first_low) + word_of(*second_high, *second_low);
        rest = tail;
    }
    if let [high, low, tail @ ..] = rest {
        total += word_of(*high, *low);
        rest = tail;
    }
    if let [last] = rest {
        total += word_of(*last, 0);
    }
    total
}

/// The word of two bytes.
fn word_of(high: u8, low: u8) -> u64
    ensures { result ≡ 256 * high + low }
{
    u64::from(high) * 256 + u64::from(low)
}

/// The ones' complement fold of a sum into 16 bits: 0 only for 0 (RFC 1071, section 1).
#[tactic(auto, unfolding(crate::specs::Checksum::fold_of))]
pub fn fold(sum: u64) -> u16
    ensures { result ≡ fold_of sum }
{
    if sum == 0 {
        0
    } else {
        (1 + (sum - 1) % 65535) as u16
    }
}

/// Whether words with this sum, their checksum among them, are intact: the sum folds to 0xffff (RFC 1071, section 1).
pub fn verifies(sum: u64) -> bool
    ensures { IsTrue result ↔ Verifies sum }
{
    fold(sum) == ALL_ONES
}

/// A UDP checksum as it is written: zero stands for none, so all ones are written in its place (RFC 768). A sum verifies with its
/// checksum added also then.
pub fn ones_for_zero(checksum: u16) -> u16
    ensures value { result ≡ ones_for_zero checksum }
    ensures verifies { (sum : ℕ) → checksum ≡ 65535 - fold_of sum → Verifies (sum + result) }
{
    if checksum == 0 { ALL_ONES } else { checksum }
}
