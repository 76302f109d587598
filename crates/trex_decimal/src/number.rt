// Whole and signed numbers without a point or an exponent.

ghost use Rattle.std.specs.Prelude.{◌≡◌, ◌==◌, slice_index};
ghost use Rattle.trex_decimal.specs.Decimal.{whole_of, signed_of};

/// Whether a text begins with a plus sign, which the standard parsers take.
fn begins_with_plus(text: &str) -> bool
    ensures { result ≡ (slice_index text.now 0 == 43) }
{
    let bytes = text.as_bytes();
    if bytes.is_empty() {
        false
    } else {
        bytes[0] == b'+'
    }
}

/// The value of one or more digits, where a u64 holds it. Leading zeros are allowed, a plus sign isn't.
pub fn whole(text: &str) -> Option<u64>
    ensures { result ≡ whole_of text.now }
{
    if begins_with_plus(text) {
        return None;
    }
    text.parse::<u64>().ok()
}

/// The value of one or more digits after an optional minus sign, where an i64 holds it. Leading zeros are allowed, a plus sign
/// isn't.
pub fn signed(text: &str) -> Option<i64>
    ensures { result ≡ signed_of text.now }
{
    if begins_with_plus(text) {
        return None;
    }
    text.parse::<i64>().ok()
}
