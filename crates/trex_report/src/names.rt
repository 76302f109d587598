// Names, as they are printed.

ghost use Rattle.std.specs.Prelude.{◌≡◌};
ghost use Rattle.trex_report.specs.Names.{fault_name, unfit_name, rule_name, option_name};

use trex_pcap::{CaptureFault, Unfit};
use trex_profile::Rule;
use trex_words::OptionName;

/// A rule, as it is printed.
pub(crate) fn rule_name(rule: Rule) -> &'static str
    ensures { result.now ≡ rule_name rule }
{
    match rule {
        Rule::TooLong => "TooLong",
        Rule::NotJson => "NotJson",
        Rule::NotArray => "NotArray",
        Rule::TooManyStreams => "TooManyStreams",
        Rule::BadEntry => "BadEntry",
        Rule::BadStreamId => "BadStreamId",
        Rule::BadStream => "BadStream",
        Rule::BadEnabled => "BadEnabled",
        Rule::BadSelfStart => "BadSelfStart",
        Rule::BadIsg => "BadIsg",
        Rule::BadNext => "BadNext",
        Rule::BadActionCount => "BadActionCount",
        Rule::BadSeed => "BadSeed",
        Rule::BadPacket => "BadPacket",
        Rule::BadBinary => "BadBinary",
        Rule::BadLayer => "BadLayer",
        Rule::LayerOrder => "LayerOrder",
        Rule::LayersTooLong => "LayersTooLong",
        Rule::BadMode => "BadMode",
        Rule::BadRate => "BadRate",
        Rule::BadCount => "BadCount",
        Rule::BadIbg => "BadIbg",
        Rule::BadFlowStats => "BadFlowStats",
        Rule::BadVm => "BadVm",
        Rule::TooManyInstructions => "TooManyInstructions",
        Rule::BadInstruction => "BadInstruction",
        Rule::BadOperand => "BadOperand",
        Rule::BadLength => "BadLength",
        Rule::RateZero => "RateZero",
        Rule::RateTooHigh => "RateTooHigh",
        Rule::CountZero => "CountZero",
        Rule::VarName => "VarName",
        Rule::VarRange => "VarRange",
        Rule::UnknownVariable => "UnknownVariable",
        Rule::TwoTrims => "TwoTrims",
        Rule::TrimRange => "TrimRange",
        Rule::NoRoomForStamp => "NoRoomForStamp",
        Rule::BadField => "BadField",
        Rule::WriteRoom => "WriteRoom",
        Rule::BadFix => "BadFix",
        Rule::WriteOnShape => "WriteOnShape",
        Rule::DuplicateId => "DuplicateId",
        Rule::NoSuchStream => "NoSuchStream",
        Rule::SharedStream => "SharedStream",
        Rule::DuplicateFlow => "DuplicateFlow",
    }
}

/// An option, as it is printed after its dashes.
pub(crate) fn option_name(option: OptionName) -> &'static str
    ensures { result.now ≡ option_name option }
{
    match option {
        OptionName::Duration => "duration",
        OptionName::Limit => "limit",
        OptionName::Cores => "cores",
        OptionName::Base => "base",
        OptionName::Seed => "seed",
        OptionName::Streams => "streams",
        OptionName::Loss => "loss",
        OptionName::Copy => "copy",
        OptionName::Delay => "delay",
    }
}

/// A fault of a capture, as it is printed.
pub(crate) fn fault_name(fault: CaptureFault) -> &'static str
    ensures { result.now ≡ fault_name fault }
{
    match fault {
        CaptureFault::Torn { number: _ } => "Torn",
        CaptureFault::BadMagic => "BadMagic",
        CaptureFault::BadVersion => "BadVersion",
        CaptureFault::BadLink => "BadLink",
        CaptureFault::TooMany => "TooMany",
        CaptureFault::BadFraction { number: _ } => "BadFraction",
        CaptureFault::BadLength { number: _ } => "BadLength",
        CaptureFault::Fault => "Fault",
    }
}

/// Why a capture makes no profile, as it is printed.
pub(crate) fn unfit_name(unfit: Unfit) -> &'static str
    ensures { result.now ≡ unfit_name unfit }
{
    match unfit {
        Unfit::Count { number: _ } => "Count",
        Unfit::Length { number: _ } => "Length",
        Unfit::Cut { number: _ } => "Cut",
        Unfit::Backwards { number: _ } => "Backwards",
        Unfit::Late { number: _ } => "Late",
        Unfit::TooLarge => "TooLarge",
    }
}
