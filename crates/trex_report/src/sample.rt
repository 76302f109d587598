// The line on a sample.

ghost use Rattle.std.specs.Prelude.{◌≡◌, ◌<◌};
ghost use Rattle.trex_io.specs.Texts.{Writes};
ghost use Rattle.trex_report.specs.Texts.{hex_digit, hex, sample_line};

use crate::gather::Gathered;
use trex_io::{Failed, Sink, write_all};

/// A number below 16 as a digit, in lower case.
fn hex_digit(number: u16) -> u8
    requires { number < 16 }
    ensures { result ≡ hex_digit number }
{
    let number = number as u8;
    if number < 10 {
        b'0' + number
    } else {
        b'a' - 10 + number
    }
}

/// A number as four digits.
fn hex(number: u16) -> [u8; 4]
    ensures { result ≡ hex number }
{
    [
        hex_digit(number / 4096),
        hex_digit(number / 256 % 16),
        hex_digit(number / 16 % 16),
        hex_digit(number % 16),
    ]
}

/// Writes what is summed up of a sample, in one piece.
pub(crate) fn write_sample<O: Sink>(
    to: &mut O,
    seed: u64,
    streams: u32,
    packets: u64,
    bytes: u64,
    sum: u16,
) -> Result<(), Failed>
    ensures { Writes O.held O.faults to.old to.new result (sample_line seed streams packets bytes sum) }
{
    let mut line = Gathered::new();
    line.number(b"sample seed ", seed);
    line.number(b" streams ", streams);
    line.number(b" packets ", packets);
    line.number(b" bytes ", bytes);
    line.text(b" sum ");
    line.text(&hex(sum));
    line.text(b"\n");
    write_all(to, line.bytes())
}
