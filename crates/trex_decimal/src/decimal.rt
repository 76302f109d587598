// Decimals as scaled whole numbers, floored. The form is looked at first (`stop_of`), and then the value is computed.

ghost use Rattle.std.specs.Prelude.{◌≡◌, ◌≤◌, ◌<◌, ◌^◌, length, filter};
ghost use Rattle.std.specs.Char.{is_ascii_digit};
ghost use Rattle.std.specs.List.{before_first, after_first};
ghost use Rattle.trex_decimal.specs.Decimal.{scaled_of, floor_of, below_limit, digits_number, StopsAtFront};
ghost use Rattle.trex_decimal.specs.Grammar.{is_mark, is_point};

use crate::grammar::stop_of;
use crate::place::{is_mark, is_point};
use crate::shift::shifted;
use thiserror::Error;

/// Why a text isn't a scaled decimal.
#[derive(Debug, Drop, Error)]
pub enum DecimalFault {
    /// The text is no decimal. `at` is the length of its longest front that is the front of a decimal.
    #[error("no decimal from byte {at} on")]
    Syntax { at: usize },
    /// The answer would be 10 ^ 30 or more.
    #[error("10^30 or more")]
    TooLarge,
}

/// The number that the digits of a text write, whatever stands between them.
fn digits_number(text: &[u8]) -> u128
    requires { length (filter is_ascii_digit text.now) ≤ 38 }
    ensures value { result ≡ digits_number text.now }
    ensures below { result < 10 ^ 38 }
{
    let mut number = 0;
    for byte in text {
        if byte.is_ascii_digit() {
            number = number * 10 + u128::from(*byte - b'0');
        }
    }
    number
}

/// How many bytes of a decimal stand before the exponent's mark.
fn mantissa_len(text: &[u8]) -> usize
    ensures { result ≡ length (before_first is_mark text.now) }
{
    text.iter().take_while(|byte| !is_mark(**byte)).count()
}

/// How many bytes of a mantissa stand before the point.
fn whole_len(mantissa: &[u8]) -> usize
    ensures { result ≡ length (before_first is_point mantissa.now) }
{
    mantissa.iter().take_while(|byte| !is_point(**byte)).count()
}

/// How many digits of a mantissa stand after the point.
fn fraction_len(mantissa: &[u8]) -> usize
    ensures { result ≡ length (after_first is_point mantissa.now) }
{
    mantissa
        .len()
        .saturating_sub(1)
        .saturating_sub(whole_len(mantissa))
}

/// A decimal times 10 ^ `digits`, floored. None where that is 10 ^ 30 or more.
fn floor_of(text: &[u8], digits: u32) -> Option<u128>
    requires { length (filter is_ascii_digit text.now) ≤ 38 }
    ensures { result ≡ below_limit (floor_of text.now digits) }
{
    let (mantissa, exponent) = text.split_at(mantissa_len(text));
    let number = digits_number(mantissa);
    let power = digits_number(exponent);
    let places = fraction_len(mantissa) as u128;
    let digits = u128::from(digits);
    if exponent.contains(&b'-') {
        shifted(number, digits, places + power)
    } else {
        shifted(number, digits + power, places)
    }
}

/// A decimal times 10 ^ `digits`, floored. A decimal is one or more digits, optionally a point with one or more digits,
/// optionally `e` or `E`, a sign or none, and one or two digits with a value of at most 20. The digits before the `e` are at
/// most 36. `Syntax` comes where the text isn't a decimal, `TooLarge` where it is one and the answer is 10 ^ 30 or more.
#[tactic(auto, unfolding(crate::specs::Decimal::scaled_of))]
pub fn scaled(text: &str, digits: u32) -> Result<u128, DecimalFault>
    requires { digits ≤ 9 }
    ensures value { result ≡ scaled_of text.now digits }
    ensures syntax { StopsAtFront result text.now }
{
    let text = text.as_bytes();
    match stop_of(text) {
        Some(at) => Err(DecimalFault::Syntax { at }),
        None => floor_of(text, digits).ok_or(DecimalFault::TooLarge),
    }
}
