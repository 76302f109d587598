// Sums of words of 32 bits, which fold as those of 16 bits do.

ghost use Rattle.std.specs.Prelude.{◌≡◌, ◌+◌, ◌*◌, ◌^◌, ◌<◌, ◌≤◌, length};
ghost use Rattle.trex_sum.specs.Checksum.{sum_of, fold_of};
ghost use Rattle.trex_sum.specs.Wide.{FoldsAs};

use crate::sums::{fold, number_of, sum_tail};

/// The fold of a number and the plain sum of some bytes, in less time than by `sum_words`: words of 32 bits are added (RFC 1071, section 2).
pub fn fold_sum(start: u64, bytes: &[u8]) -> u16
    requires start { start < 2 ^ 32 }
    requires short { length bytes.now < 2 ^ 20 }
    ensures { result ≡ fold_of (start + sum_of bytes.now) }
{
    fold(start + sum_wide(bytes))
}

/// The sum of words of 32 bits, and of the last words of 16 bits.
fn sum_wide(bytes: &[u8]) -> u64
    requires { length bytes.now < 2 ^ 20 }
    ensures folds { FoldsAs (sum_of bytes.now) result }
    ensures bound { result ≤ 2 ^ 32 * length bytes.now }
{
    let mut total = 0;
    let mut rest = bytes;
    while rest.len() >= 8 {
        let (front, back) = rest.split_at(8);
        total += sum_two_wide(front);
        rest = back;
    }
    total + sum_tail(rest)
}

/// The sum of the two words of 32 bits in eight bytes.
fn sum_two_wide(bytes: &[u8]) -> u64
    requires { length bytes.now ≡ 8 }
    ensures folds { FoldsAs (sum_of bytes.now) result }
    ensures bound { result < 2 ^ 33 }
{
    let word = number_of(bytes);
    (word >> 32) + word % (1 << 32)
}
