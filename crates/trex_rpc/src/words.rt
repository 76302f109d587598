// The words of a line, cut at its spaces.

ghost use Rattle.std.specs.Prelude.{◌≡◌, ◌<◌, ◌∷◌, codes, length, map, string_bytes, IfOk, MatchOption};
ghost use Rattle.std.specs.List.{after_first, before_first, position_or_len, slice_split};
ghost use Rattle.trex_rpc.specs.Answer.{is_space};

use std::alloc::Global;
use trex_io::Memory;

/// What stands before the first space of a text, and what stands behind it.
pub(crate) fn cut_at_space(text: &str) -> Option<(&str, &str)>
    ensures { MatchOption result (position_or_len is_space text.now ≡ length text.now)
        (λ halves. (position_or_len is_space text.now < length text.now)
        × (halves.0.now ≡ before_first is_space text.now) × (halves.1.now ≡ after_first is_space text.now)) }
{
    match text.split_once(' ') {
        None => None,
        Some((before, after)) => Some((before, after)),
    }
}

/// The words of a run: `run`, and those of a text.
pub(crate) fn run_words(alloc: Global, text: &str) -> Result<Vec<String>, Memory>
    ensures { IfOk result (λ words. map string_bytes words.items ≡ codes "run" ∷ slice_split is_space text.now) }
{
    let mut words = Vec::new(alloc);
    words.push(String::from_str(alloc, "run")?)?;
    for word in text.split(' ') {
        words.push(String::from_str(alloc, word)?)?;
    }
    Ok(words)
}
