// Sums of known bytes, at once and in pieces, and the checksum that is written as all ones.

ghost use Rattle.std.specs.Prelude.{◌≤◌, length};

use std::process::Abort;
use trex_sum::{RunningSum, fold, fold_sum, ones_for_zero, sum_words, verifies};

/// Bytes, their sum and its fold: the numerical example of RFC 1071, section 3, whose sum is 2ddf0 and whose checksum is 220d, and other
/// lengths beside it, so that each part of a tail is there with and without the others.
const SUMS: [(&[u8], u64, u16); 10] = [
    (&[], 0, 0),
    (&[0xab], 0xab00, 0xab00),
    (
        &[0x00, 0x01, 0xf2, 0x03, 0xf4, 0xf5, 0xf6, 0xf7],
        0x2ddf0,
        0xddf2,
    ),
    (
        &[0x00, 0x01, 0xf2, 0x03, 0xf4, 0xf5, 0xf6, 0xf7, 0x22, 0x0d],
        0x2fffd,
        0xffff,
    ),
    (&[0xff, 0xff, 0x80], 0x17fff, 0x8000),
    (&[1, 2, 3, 4, 5], 0x0906, 0x0906),
    (&[1, 2, 3, 4, 5, 6, 7], 0x100c, 0x100c),
    (&[1, 2, 3, 4, 5, 6, 7, 8, 9, 10, 11], 0x241e, 0x241e),
    (&[1, 2, 3, 4, 5, 6, 7, 8, 9, 10, 11, 12], 0x242a, 0x242a),
    (&[0xff; 16], 0x7fff8, 0xffff),
];

/// The bytes of that example in pieces, of which some begin in the middle of a word.
const PIECES: [&[u8]; 5] = [
    &[0x00, 0x01, 0xf2],
    &[0x03],
    &[],
    &[0xf4, 0xf5, 0xf6],
    &[0xf7],
];

/// Checksums as they come out and as they are written.
const WRITTEN: [(u16, u16); 4] = [(0, 0xffff), (1, 1), (0xa038, 0xa038), (0xffff, 0xffff)];

/// Bytes have this sum and this fold, in words and at once.
fn assert_summed(rt: &impl Abort, bytes: &[u8], sum: u64, folded: u16)
    requires { length bytes.now ≤ 16 }
{
    assert_eq!(rt; sum_words(bytes), sum, "the sum of {bytes:?}");
    assert_eq!(rt; fold_sum(0, bytes), folded, "the fold of {sum} at once");
    assert_eq!(rt; fold(sum), folded, "the fold of {sum}");
    assert_eq!(rt; verifies(sum), folded == 0xffff, "whether {sum} verifies");
}

#[test]
fn sums_words_and_folds_them(rt: HostRuntime) {
    for &(bytes, sum, folded) in &SUMS {
        assert!(rt; bytes.len() <= 16);
        assert_summed(&rt, bytes, sum, folded);
    }
}

#[test]
fn sums_bytes_that_go_by_in_pieces(rt: HostRuntime) {
    let mut sum = RunningSum::new();
    for &piece in &PIECES {
        assert!(rt; piece.len() <= 3);
        assert!(rt; sum.sum() <= 0x2ddf0);
        sum.add(piece);
    }
    assert_eq!(rt; sum.sum(), 0x2ddf0);
}

#[test]
fn zero_alone_is_written_as_all_ones(rt: HostRuntime) {
    for &(checksum, written) in &WRITTEN {
        assert_eq!(rt; ones_for_zero(checksum), written, "{checksum}");
    }
}
