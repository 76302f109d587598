// The lines on a capture that has a fault, or that makes no profile.

ghost use Rattle.std.specs.Prelude.{◌≡◌};
ghost use Rattle.trex_io.specs.Texts.{Writes};
ghost use Rattle.trex_report.specs.Texts.{capture_line, fault_line, record_of, unfit_line, unfit_record};

use crate::names::{fault_name, unfit_name};
use itoa::Buffer;
use trex_io::{Failed, Sink, write_pieces};
use trex_pcap::{CaptureFault, Unfit};

/// The record of a fault, where it has one.
fn record_of(fault: CaptureFault) -> Option<u64>
    ensures { result ≡ record_of fault }
{
    match fault {
        CaptureFault::Torn { number }
        | CaptureFault::BadFraction { number }
        | CaptureFault::BadLength { number } => Some(number),
        _ => None,
    }
}

/// The record that makes a capture unfit, where it is one.
fn unfit_record(unfit: Unfit) -> Option<u64>
    ensures { result ≡ unfit_record unfit }
{
    match unfit {
        Unfit::Count { number }
        | Unfit::Length { number }
        | Unfit::Cut { number }
        | Unfit::Backwards { number }
        | Unfit::Late { number } => Some(number),
        Unfit::TooLarge => None,
    }
}

/// Writes what is said of a capture, what it is, and the number of its record where it has one.
#[tactic(auto, unfolding(crate::specs::Texts::capture_line))]
fn write_capture_line<N: Sink>(
    to: &mut N,
    said: &[u8],
    name: &str,
    number: Option<u64>,
) -> Result<(), Failed>
    ensures { Writes N.held N.faults to.old to.new result (capture_line said.now name.now number) }
{
    let name = name.as_bytes();
    let mut digits = Buffer::new();
    match number {
        None => write_pieces(to, &[said, name, b"\n"]),
        Some(number) => {
            let number = digits.format(number).as_bytes();
            write_pieces(to, &[said, name, b" record ", number, b"\n"])
        }
    }
}

/// Writes what is wrong with a capture: the fault, and the number of its record where it has one.
pub fn write_bad_capture<N: Sink>(to: &mut N, fault: &CaptureFault) -> Result<(), Failed>
    ensures { Writes N.held N.faults to.old to.new result (fault_line fault.now) }
{
    write_capture_line(to, b"bad capture: ", fault_name(*fault), record_of(*fault))
}

/// Writes why a capture makes no profile, and the number of the record where it is one.
pub(crate) fn write_unfit<N: Sink>(to: &mut N, unfit: Unfit) -> Result<(), Failed>
    ensures { Writes N.held N.faults to.old to.new result (unfit_line unfit) }
{
    write_capture_line(
        to,
        b"unfit capture: ",
        unfit_name(unfit),
        unfit_record(unfit),
    )
}
