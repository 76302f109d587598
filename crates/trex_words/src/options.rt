// The options of each command, with their limits.

ghost use Rattle.std.specs.Prelude.{◌≡◌};
ghost use Rattle.trex_words.specs.Asked.{limits_of, options_of, schedule_options, run_options, sample_options, wire_options};

use crate::command::Command;

/// The least and the greatest value of an option, and its value where it isn't given.
#[derive(Clone, Copy, Debug, PartialEq, Eq)]
pub struct Limits {
    pub least: u64,
    pub greatest: u64,
    pub default: u64,
}

pub const DURATION: Limits = Limits {
    least: 1,
    greatest: 1_000_000_000_000_000_000,
    default: 1_000_000_000,
};

pub const LIMIT: Limits = Limits {
    least: 1,
    greatest: 100_000_000,
    default: 100_000,
};

pub const CORES: Limits = Limits {
    least: 1,
    greatest: 64,
    default: 1,
};

pub const BASE: Limits = Limits {
    least: 0,
    greatest: 3_000_000_000,
    default: 0,
};

pub const SEED: Limits = Limits {
    least: 0,
    greatest: u64::MAX,
    default: 0,
};

pub const STREAMS: Limits = Limits {
    least: 1,
    greatest: 256,
    default: 16,
};

/// The limits of a share in millionths, such as that of lost records.
pub const MILLIONTHS: Limits = Limits {
    least: 0,
    greatest: 1_000_000,
    default: 0,
};

pub const DELAY: Limits = Limits {
    least: 0,
    greatest: 1_000_000_000_000_000_000,
    default: 0,
};

/// The limits of an option of a run or of a sample.
fn schedule_limits(name: &str) -> Option<Limits>
    ensures { result ≡ limits_of schedule_options name.now }
{
    if name == "--duration" {
        Some(DURATION)
    } else if name == "--limit" {
        Some(LIMIT)
    } else if name == "--cores" {
        Some(CORES)
    } else {
        None
    }
}

/// The limits of an option of a run.
fn run_limits(name: &str) -> Option<Limits>
    ensures { result ≡ limits_of run_options name.now }
{
    if name == "--base" {
        Some(BASE)
    } else {
        schedule_limits(name)
    }
}

/// The limits of an option of a sample.
fn sample_limits(name: &str) -> Option<Limits>
    ensures { result ≡ limits_of sample_options name.now }
{
    if name == "--seed" {
        Some(SEED)
    } else if name == "--streams" {
        Some(STREAMS)
    } else {
        schedule_limits(name)
    }
}

/// The limits of an option of a wire.
fn wire_limits(name: &str) -> Option<Limits>
    ensures { result ≡ limits_of wire_options name.now }
{
    if name == "--seed" {
        Some(SEED)
    } else if name == "--loss" || name == "--copy" {
        Some(MILLIONTHS)
    } else if name == "--delay" {
        Some(DELAY)
    } else {
        None
    }
}

/// The limits of an option of a command.
pub fn limits_of(command: Command, name: &str) -> Option<Limits>
    ensures { result ≡ limits_of (options_of command) name.now }
{
    match command {
        Command::Run => run_limits(name),
        Command::Sample => sample_limits(name),
        Command::Wire => wire_limits(name),
        Command::Check | Command::Analyze | Command::Import | Command::Session | Command::Help =>
            None,
    }
}
