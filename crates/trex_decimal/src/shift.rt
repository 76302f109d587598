// Whole numbers times powers of ten, without a sum or product that leaves 128 bits.

ghost use Rattle.std.specs.Prelude.{◌≡◌, ◌*◌, ◌/◌, ◌^◌, ◌<◌, ◌≤◌};
ghost use Rattle.trex_decimal.specs.Decimal.{below_limit};

/// A power of ten that fits 128 bits.
fn power_of_ten(power: u32) -> u128
    requires { power ≤ 38 }
    ensures { result ≡ 10 ^ power }
{
    10u128.pow(power)
}

/// A number times a power of ten. None where that is 10 ^ 30 or more, which is found before the product is taken.
fn raised(number: u128, power: u128) -> Option<u128>
    ensures { result ≡ below_limit (number * 10 ^ power) }
{
    if number == 0 {
        return Some(0);
    }
    if power > 30 {
        return None;
    }
    let zeros = power as u32;
    if number >= power_of_ten(30 - zeros) {
        return None;
    }
    Some(number * power_of_ten(zeros))
}

/// A number of at most 38 digits over a power of ten, floored: its last digits are dropped.
fn lowered(number: u128, power: u128) -> u128
    requires { number < 10 ^ 38 }
    ensures { result ≡ number / 10 ^ power }
{
    if power > 38 {
        return 0;
    }
    number / power_of_ten(power as u32)
}

/// A number times one power of ten over another, floored. None where that is 10 ^ 30 or more.
pub fn shifted(number: u128, up: u128, down: u128) -> Option<u128>
    requires { number < 10 ^ 38 }
    ensures { result ≡ below_limit (number * 10 ^ up / 10 ^ down) }
{
    if up >= down {
        return raised(number, up - down);
    }
    let value = lowered(number, down - up);
    if value < power_of_ten(30) {
        Some(value)
    } else {
        None
    }
}
