// The commands, by the first word.

ghost use Rattle.std.specs.Prelude.{◌≡◌};
ghost use Rattle.trex_words.specs.Asked.{command_of};

/// A command, the first word.
#[derive(Clone, Copy, Debug, PartialEq, Eq)]
pub enum Command {
    Run,
    Check,
    Analyze,
    Sample,
    Import,
    Wire,
    Session,
    Help,
}

/// The command of a word, if it is one.
pub fn command_of(word: &str) -> Option<Command>
    ensures { result ≡ command_of word.now }
{
    if word == "run" {
        Some(Command::Run)
    } else if word == "check" {
        Some(Command::Check)
    } else if word == "analyze" {
        Some(Command::Analyze)
    } else if word == "sample" {
        Some(Command::Sample)
    } else if word == "import" {
        Some(Command::Import)
    } else if word == "wire" {
        Some(Command::Wire)
    } else if word == "session" {
        Some(Command::Session)
    } else if word == "help" {
        Some(Command::Help)
    } else {
        None
    }
}
