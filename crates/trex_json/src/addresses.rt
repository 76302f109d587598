// The texts of addresses.

ghost use Rattle.std.specs.Prelude.{◌≡◌, ◌+◌, ◌<◌, ◌≤◌, length, IfSome};
ghost use Rattle.trex_json.specs.Addresses.{address_of, before_dot, behind_dot, hex_digit, is_paired, mac_of, octet_of, pair_at};

/// The value of a hexadecimal digit, in either case.
fn hex_digit(byte: u8) -> Option<u8>
    ensures value { result ≡ hex_digit byte }
    ensures small { IfSome result (λ n. n < 16) }
{
    let digit = char::from(byte).to_digit(16)?;
    Some(digit as u8)
}

/// The byte that two hexadecimal digits write, from a place on.
fn pair_at(text: &[u8], at: usize) -> Option<u8>
    requires { at + 2 ≤ length text.now }
    ensures { result ≡ pair_at text.now at }
{
    let high = hex_digit(text[at])?;
    let low = hex_digit(text[at + 1])?;
    Some(16 * high + low)
}

/// Whether a text has 17 bytes, with `:` behind each pair but the last.
fn is_paired(text: &[u8]) -> bool
    ensures { result ≡ is_paired text.now }
{
    text.len() == 17
        && text[2] == b':'
        && text[5] == b':'
        && text[8] == b':'
        && text[11] == b':'
        && text[14] == b':'
}

/// A MAC address: six pairs of hexadecimal digits, joined by `:`.
#[tactic(auto, unfolding(crate::specs::Addresses::mac_of))]
pub(crate) fn mac_of(text: &str) -> Option<[u8; 6]>
    ensures { result ≡ mac_of text.now }
{
    let text = text.as_bytes();
    if !is_paired(text) {
        return None;
    }
    Some([
        pair_at(text, 0)?,
        pair_at(text, 3)?,
        pair_at(text, 6)?,
        pair_at(text, 9)?,
        pair_at(text, 12)?,
        pair_at(text, 15)?,
    ])
}

/// A number from 0 to 255, of one to three digits.
fn octet_of(text: &str) -> Option<u8>
    ensures { result ≡ octet_of text.now }
{
    if text.len() > 3 {
        return None;
    }
    let n = trex_decimal::whole(text)?;
    if n <= 255 { Some(n as u8) } else { None }
}

/// What stands before the first `.` and behind it: all and nothing where there is none.
fn cut_at_dot(text: &str) -> (&str, &str)
    ensures before { result.0.now ≡ before_dot text.now }
    ensures behind { result.1.now ≡ behind_dot text.now }
{
    match text.split_once('.') {
        Some((before, behind)) => (before, behind),
        None => (text, ""),
    }
}

/// An IPv4 address in dotted decimal (RFC 1123, section 2.1), each number of one to three digits.
#[tactic(auto, unfolding(crate::specs::Addresses::octets_of))]
pub(crate) fn address_of(text: &str) -> Option<u32>
    ensures { result ≡ address_of text.now }
{
    let (first, rest) = cut_at_dot(text);
    let (second, rest) = cut_at_dot(rest);
    let (third, fourth) = cut_at_dot(rest);
    Some(u32::from_be_bytes([
        octet_of(first)?,
        octet_of(second)?,
        octet_of(third)?,
        octet_of(fourth)?,
    ]))
}
