// The places of a decimal, and where each byte leads from one: the grammar as a machine that reads byte by byte.

ghost use Rattle.std.specs.Prelude.{◌≡◌, true, false, Option};
ghost use Rattle.std.specs.Char.{is_ascii_digit};
ghost use Rattle.trex_decimal.specs.Grammar.{next, may_end, is_mark, is_point};

/// A place in a decimal, named for what was read last. The number is how many more digits may stand before the exponent's
/// mark, besides one that must follow a point; at the exponent's first digit it is that digit.
#[derive(Clone, Copy, Debug, PartialEq, Eq)]
pub enum Place {
    Start,
    Whole(u8),
    Point(u8),
    Fraction(u8),
    Mark,
    Sign,
    Power(u8),
    End,
}

/// Whether a byte is the mark of an exponent.
pub fn is_mark(byte: u8) -> bool
    ensures { result ≡ is_mark byte }
{
    byte == b'e' || byte == b'E'
}

/// Whether a byte is the point of a decimal.
pub fn is_point(byte: u8) -> bool
    ensures { result ≡ is_point byte }
{
    byte == b'.'
}

/// Where a digit leads from a place. None where it can't stand there.
fn next_digit(place: Place, byte: u8) -> Option<Place>
    requires { is_ascii_digit byte ≡ true }
    ensures { result ≡ next place byte }
{
    match place {
        Place::Start => Some(Place::Whole(35)),
        Place::Whole(left) => Some(Place::Whole(left.checked_sub(1)?)),
        Place::Point(left) => Some(Place::Fraction(left)),
        Place::Fraction(left) => Some(Place::Fraction(left.checked_sub(1)?)),
        Place::Mark | Place::Sign => Some(Place::Power(byte - b'0')),
        Place::Power(first) => {
            let power = 10 * u32::from(first) + u32::from(byte - b'0');
            if power <= 20 { Some(Place::End) } else { None }
        }
        Place::End => None,
    }
}

/// Where a byte that is no digit leads from a place. None where it can't stand there.
fn next_other(place: Place, byte: u8) -> Option<Place>
    requires { is_ascii_digit byte ≡ false }
    ensures { result ≡ next place byte }
{
    match place {
        Place::Whole(left) if is_point(byte) => Some(Place::Point(left.checked_sub(1)?)),
        Place::Whole(_) | Place::Fraction(_) if is_mark(byte) => Some(Place::Mark),
        Place::Mark if byte == b'+' || byte == b'-' => Some(Place::Sign),
        _ => None,
    }
}

impl Place {
    /// Where a byte leads. None where it can't stand here.
    pub fn next(self, byte: u8) -> Option<Place>
        ensures { result ≡ next self byte }
    {
        if byte.is_ascii_digit() {
            next_digit(self, byte)
        } else {
            next_other(self, byte)
        }
    }

    /// Whether a decimal may end here.
    pub fn may_end(self) -> bool
        ensures { result ≡ may_end self }
    {
        matches!(
            self,
            Place::Whole(_) | Place::Fraction(_) | Place::Power(_) | Place::End
        )
    }
}
