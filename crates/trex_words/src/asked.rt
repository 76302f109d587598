// What the command words may ask for, and what may be wrong with them.

/// A request.
#[derive(Clone, Copy, Debug, PartialEq, Eq)]
pub enum Asked {
    /// Make the capture of a profile.
    Run(RunAsk),
    /// Tell whether a profile is accepted.
    Check,
    /// Measure a capture.
    Analyze,
    /// Sum up the capture of a sample profile.
    Sample(SampleAsk),
    /// Make a profile of a capture.
    Import,
    /// Measure what a simulated wire gives of a capture.
    Wire(WireAsk),
    /// Hold a session of stream commands.
    Session,
    /// Tell the commands and their options.
    Help,
}

/// The options of a run.
#[derive(Clone, Copy, Debug, PartialEq, Eq)]
pub struct RunAsk {
    /// The end of the schedule in nanoseconds: packets before it are sent.
    pub duration: u64,
    /// The most packets that are sent.
    pub limit: u64,
    /// How many cores share the work.
    pub cores: u32,
    /// The schedule's zero, in seconds of the capture's clock.
    pub base: u32,
}

/// The options of a sample.
#[derive(Clone, Copy, Debug, PartialEq, Eq)]
pub struct SampleAsk {
    /// The seed of the sample profile.
    pub seed: u64,
    /// How many streams the sample profile has.
    pub streams: u32,
    /// The run of the sample profile; its base is 0.
    pub run: RunAsk,
}

/// The options of a simulated wire.
#[derive(Clone, Copy, Debug, PartialEq, Eq)]
pub struct WireAsk {
    /// The seed of the words by which the wire loses, copies and delays.
    pub seed: u64,
    /// How many of a million records are lost.
    pub loss: u32,
    /// How many of a million records that aren't lost arrive twice.
    pub copy: u32,
    /// The longest delay of a copy, in nanoseconds.
    pub delay: u64,
}

/// An option, by its name.
#[derive(Clone, Copy, Debug, PartialEq, Eq)]
pub enum OptionName {
    Duration,
    Limit,
    Cores,
    Base,
    Seed,
    Streams,
    Loss,
    Copy,
    Delay,
}

/// Words without a meaning: the first fault from the left. Places count from 0, the command included.
#[derive(Clone, Copy, Debug, PartialEq, Eq)]
pub enum Usage {
    /// There is no word.
    NoCommand,
    /// The first word isn't a command.
    UnknownCommand,
    /// The word at this place isn't an option of the command.
    UnknownOption { at: usize },
    /// The option at this place stood before.
    Repeated { at: usize },
    /// No word follows the option at this place.
    NoValue { at: usize },
    /// The value at this place isn't one or more digits.
    BadNumber { at: usize },
    /// The value at this place lies outside the option's range.
    OutOfRange { at: usize },
    /// An option that must be given isn't.
    Missing { option: OptionName },
}
