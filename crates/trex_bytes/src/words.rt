// Command words and what they ask for, by the table of options; their numbers are also read by clap.

use clap::builder::ValueParser;
use clap::{Arg, ArgMatches, Command};
use std::alloc::{AllocError, Global};
use std::process::Abort;
use std::test::Fail;
use trex_words::{Asked, OptionName, RunAsk, SampleAsk, Usage, read_words};

/// The words of a line, which spaces part.
fn words(alloc: Global, line: &str) -> Result<Vec<String>, AllocError> {
    let mut words = Vec::new(alloc);
    for word in line.split_whitespace() {
        words.push(String::from_str(alloc, word)?)?;
    }
    Ok(words)
}

/// A line's words ask for this, or have this fault.
fn assert_read(
    rt: &impl Abort,
    alloc: Global,
    line: &str,
    want: Result<Asked, Usage>,
) -> Result<(), Fail> {
    assert_eq!(rt; read_words(&words(alloc, line)?), want, "{line}");
    Ok(())
}

/// Lines, and the first fault of each.
const FAULTS: [(&str, Usage); 17] = [
    ("", Usage::NoCommand),
    ("go", Usage::UnknownCommand),
    ("run --limit 0", Usage::OutOfRange { at: 2 }),
    ("run --cores=2", Usage::UnknownOption { at: 1 }),
    ("run --base", Usage::NoValue { at: 1 }),
    ("run --base x", Usage::BadNumber { at: 2 }),
    ("run --base 1 --base 1", Usage::Repeated { at: 3 }),
    ("check x", Usage::UnknownOption { at: 1 }),
    ("session --limit 1", Usage::UnknownOption { at: 1 }),
    ("help --limit 1", Usage::UnknownOption { at: 1 }),
    (
        "sample",
        Usage::Missing {
            option: OptionName::Seed,
        },
    ),
    (
        "sample --limit 5",
        Usage::Missing {
            option: OptionName::Seed,
        },
    ),
    ("sample --base 1", Usage::UnknownOption { at: 1 }),
    ("sample --seed", Usage::NoValue { at: 1 }),
    ("run --base 1 --base", Usage::Repeated { at: 3 }),
    ("run --base +1", Usage::BadNumber { at: 2 }),
    ("run --cores 0 go", Usage::OutOfRange { at: 2 }),
];

/// Lines whose second option has a value beside its range.
const BESIDE: [&str; 10] = [
    "run --duration 0",
    "run --duration 1000000000000000001",
    "run --limit 100000001",
    "run --cores 0",
    "run --cores 65",
    "run --base 3000000001",
    "run --base 18446744073709551616",
    "sample --seed 18446744073709551616",
    "sample --streams 0",
    "sample --streams 257",
];

/// Lines of a command alone.
const ALONE: [(&str, Asked); 4] = [
    ("check", Asked::Check),
    ("analyze", Asked::Analyze),
    ("session", Asked::Session),
    ("help", Asked::Help),
];

/// Lines, and the duration, the limit, the cores and the base of the runs that they ask for. At most one of them is at an end of its range.
const RUNS: [(&str, u64, u64, u32, u32); 10] = [
    ("run", 1_000_000_000, 100_000, 1, 0),
    (
        "run --limit 7 --base 0009 --cores 3 --duration 5",
        5,
        7,
        3,
        9,
    ),
    ("run --duration 1", 1, 100_000, 1, 0),
    (
        "run --duration 1000000000000000000",
        1_000_000_000_000_000_000,
        100_000,
        1,
        0,
    ),
    ("run --limit 1", 1_000_000_000, 1, 1, 0),
    ("run --limit 100000000", 1_000_000_000, 100_000_000, 1, 0),
    ("run --cores 1", 1_000_000_000, 100_000, 1, 0),
    ("run --cores 64", 1_000_000_000, 100_000, 64, 0),
    ("run --base 0", 1_000_000_000, 100_000, 1, 0),
    (
        "run --base 3000000000",
        1_000_000_000,
        100_000,
        1,
        3_000_000_000,
    ),
];

/// Lines, and the seed and the number of streams of the samples that they ask for.
const SAMPLES: [(&str, u64, u32); 4] = [
    ("sample --seed 0", 0, 16),
    (
        "sample --seed 18446744073709551615",
        18_446_744_073_709_551_615,
        16,
    ),
    ("sample --streams 1 --seed 2", 2, 1),
    ("sample --streams 256 --seed 2", 2, 256),
];

#[test]
fn words_are_read_up_to_the_first_fault(rt: HostRuntime) -> Result<(), Fail> {
    for &(line, fault) in &FAULTS {
        assert_read(&rt, rt.alloc(), line, Err(fault))?;
    }
    for &line in &BESIDE {
        assert_read(&rt, rt.alloc(), line, Err(Usage::OutOfRange { at: 2 }))?;
    }
    Ok(())
}

#[test]
fn a_command_alone_is_asked_for(rt: HostRuntime) -> Result<(), Fail> {
    for &(line, asked) in &ALONE {
        assert_read(&rt, rt.alloc(), line, Ok(asked))?;
    }
    Ok(())
}

#[test]
fn a_run_has_its_numbers_up_to_the_ends_of_their_ranges(rt: HostRuntime) -> Result<(), Fail> {
    for &(line, duration, limit, cores, base) in &RUNS {
        let run = RunAsk {
            duration,
            limit,
            cores,
            base,
        };
        assert_read(&rt, rt.alloc(), line, Ok(Asked::Run(run)))?;
    }
    Ok(())
}

#[test]
fn a_sample_has_its_numbers_up_to_the_ends_of_their_ranges(rt: HostRuntime) -> Result<(), Fail> {
    let run = RunAsk {
        duration: 1_000_000_000,
        limit: 100_000,
        cores: 1,
        base: 0,
    };
    for &(line, seed, streams) in &SAMPLES {
        let sample = SampleAsk { seed, streams, run };
        assert_read(&rt, rt.alloc(), line, Ok(Asked::Sample(sample)))?;
    }
    Ok(())
}

/// An option whose value lies from a least to a greatest one.
fn option<'a>(alloc: Global, name: &'a str, least: u64, greatest: u64) -> Arg<'a> {
    Arg::new(alloc, name)
        .long(name)
        .value_parser(ValueParser::unsigned(least, greatest))
}

/// A command with the options that `run` and `sample` have both.
fn command<'a>(alloc: Global, name: &'a str) -> Result<Command<'a>, AllocError> {
    let duration = option(alloc, "duration", 1, 1_000_000_000_000_000_000);
    let limit = option(alloc, "limit", 1, 100_000_000);
    let cores = option(alloc, "cores", 1, 64);
    Command::new(alloc, name)
        .arg(duration.default_value("1000000000"))?
        .arg(limit.default_value("100000"))?
        .arg(cores.default_value("1"))
}

fn run_numbers(matches: &ArgMatches<'_>, base: u32) -> Option<RunAsk> {
    Some(RunAsk {
        duration: matches.get_one("duration")?,
        limit: matches.get_one("limit")?,
        cores: matches.get_one("cores")?,
        base,
    })
}

fn sample_numbers(matches: &ArgMatches<'_>) -> Option<SampleAsk> {
    Some(SampleAsk {
        seed: matches.get_one("seed")?,
        streams: matches.get_one("streams")?,
        run: run_numbers(matches, 0)?,
    })
}

#[test]
fn clap_reads_the_same_numbers(rt: HostRuntime) -> Result<(), Fail> {
    let alloc = rt.alloc();
    for line in ["run", "run --cores 3 --limit 7 --base 1 --duration 2"] {
        let words = words(alloc, line)?;
        let base = option(alloc, "base", 0, 3_000_000_000).default_value("0");
        let matches = command(alloc, "run")?
            .arg(base)?
            .try_get_matches_from(words.as_slice())?;
        let base = matches.get_one("base").ok_or("a base")?;
        let ask = run_numbers(&matches, base).ok_or("the numbers of a run")?;
        assert_eq!(rt; read_words(&words), Ok(Asked::Run(ask)), "{line}");
    }
    for line in [
        "sample --seed 1 --streams 16 --limit 20000 --cores 8",
        "sample --seed 1",
    ] {
        let words = words(alloc, line)?;
        let seed = option(alloc, "seed", 0, u64::MAX).required(true);
        let streams = option(alloc, "streams", 1, 256).default_value("16");
        let command = command(alloc, "sample")?.arg(seed)?.arg(streams)?;
        let matches = command.try_get_matches_from(words.as_slice())?;
        let ask = sample_numbers(&matches).ok_or("the numbers of a sample")?;
        assert_eq!(rt; read_words(&words), Ok(Asked::Sample(ask)), "{line}");
    }
    Ok(())
}
