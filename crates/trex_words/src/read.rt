// The reading of the command words: first what is wrong with them, from the left, and then what they ask for.

ghost use Rattle.std.specs.Prelude.{◌≡◌, ◌+◌, ◌*◌, ◌/◌, ◌^◌, ◌<◌, ◌≤◌, true, None, Some, length, IfOk};
ghost use Rattle.std.specs.Str.Parse.{digits_value};
ghost use Rattle.trex_words.specs.Asked.{texts, word, value_place, is_number, is_within, value_fault, pair_fault, fault_of, missing_option, command_fault, limits_of, options_of, run_options, sample_options, wire_options, value_of, run_of, run_ask, sample_ask, wire_ask, request, asked, IsRunAsk, IsSampleAsk, IsWireAsk, IsAsked};

use crate::asked::{Asked, OptionName, RunAsk, SampleAsk, Usage, WireAsk};
use crate::command::{Command, command_of};
use crate::options::{
    BASE, CORES, DELAY, DURATION, LIMIT, Limits, MILLIONTHS, SEED, STREAMS, limits_of,
};

/// The word at a place.
fn word(words: &[String], at: usize) -> &str
    requires { at < length words.now }
    ensures { result.now ≡ word (texts words.now) at }
{
    words[at].as_str()
}

/// The place of an option's value among the first pairs of words, if it stands there.
fn value_place(words: &[String], pairs: usize, name: &str) -> Option<usize>
    requires { 2 * pairs ≤ length words.now }
    ensures { result ≡ value_place (texts words.now) pairs name.now }
{
    for pair in 0..pairs {
        let at = 2 * pair + 1;
        if word(words, at) == name {
            return Some(at + 1);
        }
    }
    None
}

/// Whether a text is one or more digits.
fn is_number(text: &str) -> bool
    ensures { result ≡ is_number text.now }
{
    let bytes = text.as_bytes();
    for byte in bytes {
        if !byte.is_ascii_digit() {
            return false;
        }
    }
    !bytes.is_empty()
}

/// Whether the number of one or more digits lies from a least to a greatest value.
fn is_within(least: u64, greatest: u64, text: &str) -> bool
    requires { is_number text.now ≡ true }
    ensures { result ≡ is_within least greatest text.now }
{
    match text.parse::<u64>() {
        Ok(value) => least <= value && value <= greatest,
        Err(_) => false,
    }
}

/// What is wrong with a value at a place.
fn value_fault(limits: Limits, at: usize, text: &str) -> Option<Usage>
    ensures { result ≡ value_fault limits at text.now }
{
    if !is_number(text) {
        return Some(Usage::BadNumber { at });
    }
    if is_within(limits.least, limits.greatest, text) {
        None
    } else {
        Some(Usage::OutOfRange { at })
    }
}

/// What is wrong with a pair of words, an option and its value.
fn pair_fault(command: Command, words: &[String], pair: usize) -> Option<Usage>
    requires { pair < length words.now / 2 }
    ensures { result ≡ pair_fault (options_of command) (texts words.now) pair }
{
    let at = 2 * pair + 1;
    let name = word(words, at);
    let Some(limits) = limits_of(command, name) else {
        return Some(Usage::UnknownOption { at });
    };
    if value_place(words, pair, name).is_some() {
        return Some(Usage::Repeated { at });
    }
    if words.len() == at + 1 {
        return Some(Usage::NoValue { at });
    }
    value_fault(limits, at + 1, word(words, at + 1))
}

/// What is wrong with the options of a command: the first fault from the left.
fn options_fault(command: Command, words: &[String]) -> Option<Usage>
    ensures { result ≡ fault_of (options_of command) (texts words.now) }
{
    for pair in 0..words.len() / 2 {
        if let Some(fault) = pair_fault(command, words, pair) {
            return Some(fault);
        }
    }
    None
}

/// An option that must be given and isn't.
fn missing_option(command: Command, words: &[String]) -> Option<Usage>
    ensures { result ≡ missing_option command (texts words.now) }
{
    let seed = value_place(words, words.len() / 2, "--seed");
    match (command, seed) {
        (Command::Sample | Command::Wire, None) => Some(Usage::Missing {
            option: OptionName::Seed,
        }),
        _ => None,
    }
}

/// What is wrong with the words of a command.
fn command_fault(command: Command, words: &[String]) -> Option<Usage>
    ensures { result ≡ command_fault command (texts words.now) }
{
    options_fault(command, words).or(missing_option(command, words))
}

/// The number of one or more digits that a u64 holds.
fn number(text: &str) -> u64
    requires digits { is_number text.now ≡ true }
    requires fits { digits_value 10 text.now < 2 ^ 64 }
    ensures { result ≡ digits_value 10 text.now }
{
    text.parse::<u64>().unwrap()
}

/// The value of an option, where nothing is wrong with the words.
fn value_of(command: Command, words: &[String], name: &str, limits: Limits) -> u64
    requires option { limits_of (options_of command) name.now ≡ Some limits }
    requires faultless { fault_of (options_of command) (texts words.now) ≡ None }
    ensures value { result ≡ value_of (options_of command) (texts words.now) name.now }
    ensures least { limits.least ≤ limits.default → limits.least ≤ result }
    ensures greatest { limits.default ≤ limits.greatest → result ≤ limits.greatest }
{
    match value_place(words, words.len() / 2, name) {
        Some(at) => number(word(words, at)),
        None => limits.default,
    }
}

/// The options of a run, where nothing is wrong with the words.
fn run_ask(words: &[String]) -> RunAsk
    requires { fault_of run_options (texts words.now) ≡ None }
    ensures value { result ≡ run_ask (texts words.now) }
    ensures ranges { IsRunAsk result }
{
    RunAsk {
        duration: value_of(Command::Run, words, "--duration", DURATION),
        limit: value_of(Command::Run, words, "--limit", LIMIT),
        cores: value_of(Command::Run, words, "--cores", CORES) as u32,
        base: value_of(Command::Run, words, "--base", BASE) as u32,
    }
}

/// The run of a sample, where nothing is wrong with the words.
fn sample_run(words: &[String]) -> RunAsk
    requires { fault_of sample_options (texts words.now) ≡ None }
    ensures value { result ≡ run_of sample_options (texts words.now) 0 }
    ensures ranges { IsRunAsk result }
{
    RunAsk {
        duration: value_of(Command::Sample, words, "--duration", DURATION),
        limit: value_of(Command::Sample, words, "--limit", LIMIT),
        cores: value_of(Command::Sample, words, "--cores", CORES) as u32,
        base: 0,
    }
}

/// The options of a sample, where nothing is wrong with the words.
fn sample_ask(words: &[String]) -> SampleAsk
    requires { fault_of sample_options (texts words.now) ≡ None }
    ensures value { result ≡ sample_ask (texts words.now) }
    ensures ranges { IsSampleAsk result }
{
    SampleAsk {
        seed: value_of(Command::Sample, words, "--seed", SEED),
        streams: value_of(Command::Sample, words, "--streams", STREAMS) as u32,
        run: sample_run(words),
    }
}

/// The options of a wire, where nothing is wrong with the words.
fn wire_ask(words: &[String]) -> WireAsk
    requires { fault_of wire_options (texts words.now) ≡ None }
    ensures value { result ≡ wire_ask (texts words.now) }
    ensures ranges { IsWireAsk result }
{
    WireAsk {
        seed: value_of(Command::Wire, words, "--seed", SEED),
        loss: value_of(Command::Wire, words, "--loss", MILLIONTHS) as u32,
        copy: value_of(Command::Wire, words, "--copy", MILLIONTHS) as u32,
        delay: value_of(Command::Wire, words, "--delay", DELAY),
    }
}

/// What a command asks for, where nothing is wrong with the words.
fn request(command: Command, words: &[String]) -> Asked
    requires { fault_of (options_of command) (texts words.now) ≡ None }
    ensures value { result ≡ request command (texts words.now) }
    ensures ranges { IsAsked result }
{
    match command {
        Command::Run => Asked::Run(run_ask(words)),
        Command::Check => Asked::Check,
        Command::Analyze => Asked::Analyze,
        Command::Sample => Asked::Sample(sample_ask(words)),
        Command::Import => Asked::Import,
        Command::Wire => Asked::Wire(wire_ask(words)),
        Command::Session => Asked::Session,
        Command::Help => Asked::Help,
    }
}

/// What the command words ask for, or the first fault from the left. Word 0 is the command: `run`, `check`, `analyze`, `sample`,
/// `import`, `wire`, `session` or `help`. The options are pairs of words in any order, each at most once. `run` and `sample` have `--duration` (1 to 10^18, else
/// 10^9), `--limit` (1 to 100000000, else 100000) and `--cores` (1 to 64, else 1). `run` has `--base` (0 to 3000000000, else 0).
/// `sample` and `wire` have `--seed` (0 to 2^64 - 1, which must be given). `sample` has `--streams` (1 to 256, else 16). `wire` has
/// `--loss` and `--copy` (0 to 1000000, else 0) and `--delay` (0 to 10^18, else 0). A value is one or more digits.
pub fn read_words(words: &[String]) -> Result<Asked, Usage>
    ensures value { result ≡ asked (texts words.now) }
    ensures ranges { IfOk result IsAsked }
{
    if words.is_empty() {
        return Err(Usage::NoCommand);
    }
    let Some(command) = command_of(word(words, 0)) else {
        return Err(Usage::UnknownCommand);
    };
    match command_fault(command, words) {
        Some(fault) => Err(fault),
        None => Ok(request(command, words)),
    }
}
