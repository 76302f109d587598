// The help text.

ghost use Rattle.std.specs.Prelude.{◌≡◌};
ghost use Rattle.trex_words.specs.Help.{help_text};

/// The commands and their options: eight lines, each with a line feed at its end.
#[tactic(auto, unfolding(crate::specs::Help::help_text))]
pub fn help_text() -> &'static str
    ensures { result.now ≡ help_text }
{
    "trex run [--duration n] [--limit n] [--cores n] [--base n]\ntrex check\ntrex analyze\ntrex sample --seed n [--streams n] [--duration n] [--limit n] [--cores n]\ntrex import\ntrex wire --seed n [--loss n] [--copy n] [--delay n]\ntrex session\ntrex help\n"
}
