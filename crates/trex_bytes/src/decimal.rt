// The values and the faults that the contracts leave to their definitions: worked decimals, the ends of u64 and i64, and quoted texts.

ghost use Rattle.std.specs.Prelude.{◌≤◌};

use std::test::Fail;
use trex_decimal::{DecimalFault, quote_numbers, scaled, signed, whole};

/// What `scaled` answers, in a form that can be compared: the value, or where the text stops being a decimal, or neither.
#[derive(Clone, Copy, Debug, PartialEq)]
enum Answer {
    Value(u128),
    Syntax(usize),
    TooLarge,
}

/// Texts, and their floors or where they stop being decimals.
const FLOORED: [(&str, Answer); 14] = [
    ("1.", Answer::Syntax(2)),
    ("1e21", Answer::Syntax(3)),
    ("1e20", Answer::Value(100_000_000_000_000_000_000)),
    ("", Answer::Syntax(0)),
    ("-1", Answer::Syntax(0)),
    ("1e+", Answer::Syntax(3)),
    ("1e-20", Answer::Value(0)),
    ("29e-1", Answer::Value(2)),
    (
        "123456789012345678901234567890.123456",
        Answer::Value(123_456_789_012_345_678_901_234_567_890),
    ),
    ("1234567890123456789012345678901234567", Answer::Syntax(36)),
    ("123456789012345678901234567890123456.", Answer::Syntax(36)),
    ("123456789012345678901234567890.1234567", Answer::Syntax(37)),
    ("1000000000000000000000000000000", Answer::TooLarge),
    (
        "999999999999999999999999999999.9",
        Answer::Value(999_999_999_999_999_999_999_999_999_999),
    ),
];

/// Texts, and the whole and the signed numbers that they spell.
const NUMBERS: [(&str, Option<u64>, Option<i64>); 12] = [
    (
        "18446744073709551615",
        Some(18_446_744_073_709_551_615),
        None,
    ),
    ("18446744073709551616", None, None),
    (
        "9223372036854775807",
        Some(9_223_372_036_854_775_807),
        Some(9_223_372_036_854_775_807),
    ),
    ("9223372036854775808", Some(9_223_372_036_854_775_808), None),
    (
        "-9223372036854775808",
        None,
        Some(-9_223_372_036_854_775_808),
    ),
    ("-9223372036854775809", None, None),
    ("007", Some(7), Some(7)),
    ("-0", None, Some(0)),
    ("+5", None, None),
    ("-", None, None),
    ("", None, None),
    ("1.0", None, None),
];

/// JSON texts, and the same with their numbers quoted.
const QUOTED: [(&str, &str); 8] = [
    ("", ""),
    ("[5,-1.5e+3]", "[\"5\",\"-1.5e+3\"]"),
    ("{\"a\":1}", "{\"a\":\"1\"}"),
    ("\"1\\\"2\"3", "\"1\\\"2\"\"3\""),
    ("\"\\\\\"3", "\"\\\\\"\"3\""),
    ("\"1", "\"1"),
    ("1e999 true.5", "\"1e999\" true.\"5\""),
    ("{7:null}", "{\"7\":null}"),
];

/// The answer of `scaled`.
fn answer_of(text: &str, digits: u32) -> Answer
    requires { digits ≤ 9 }
{
    match scaled(text, digits) {
        Ok(value) => Answer::Value(value),
        Err(DecimalFault::Syntax { at }) => Answer::Syntax(at),
        Err(DecimalFault::TooLarge) => Answer::TooLarge,
    }
}

#[test]
fn decimals_are_floored_or_refused_where_they_stop(rt: HostRuntime) {
    for &(text, want) in &FLOORED {
        assert_eq!(rt; answer_of(text, 0), want, "{text}");
    }
}

#[test]
fn decimals_are_scaled(rt: HostRuntime) {
    assert_eq!(rt; answer_of("1e+06", 6), Answer::Value(1_000_000_000_000));
    assert_eq!(rt; answer_of("0.0009", 3), Answer::Value(0));
    assert_eq!(rt; answer_of("12.5", 3), Answer::Value(12_500));
    assert_eq!(rt;
        answer_of("1e20", 9),
        Answer::Value(100_000_000_000_000_000_000_000_000_000)
    );
    assert_eq!(rt; answer_of("10e20", 9), Answer::TooLarge);
}

#[test]
fn whole_and_signed_numbers_end_where_their_types_do(rt: HostRuntime) {
    for &(text, as_whole, as_signed) in &NUMBERS {
        assert_eq!(rt; whole(text), as_whole, "{text}");
        assert_eq!(rt; signed(text), as_signed, "{text}");
    }
}

#[test]
fn numbers_outside_texts_are_quoted(rt: HostRuntime) -> Result<(), Fail> {
    for &(text, want) in &QUOTED {
        assert_eq!(rt;
            quote_numbers(rt.alloc(), text.as_bytes())?.as_slice(),
            want.as_bytes(),
            "{text}"
        );
    }
    Ok(())
}
