// The mode of a stream, with its rate.

ghost use Rattle.std.specs.Prelude.{◌≡◌, ◌<◌, ◌^◌, None, Some, IfOk, IfSome, if◌then◌else◌};
ghost use Rattle.serde_json.specs.View.{view};
ghost use Rattle.trex_profile.specs.Order.{unless};
ghost use Rattle.trex_profile.specs.Stream.{HasGap};
ghost use Rattle.trex_profile.specs.Answer.{Gives};
ghost use Rattle.trex_json.specs.Kinds.{whole};
ghost use Rattle.trex_json.specs.Names.{field, value};
ghost use Rattle.trex_json.specs.Rows as row;
ghost use Rattle.trex_json.specs.Shape.{rate_wrong, rate, count_rules, counted, mode_rules, word_of};

use crate::kinds::ModeWord;
use crate::names::{
    gap_field, millionths_field, mode_field, object_field, rate_field, whole_field,
};
use serde_json::Value;
use trex_profile::{RawRate, Rule, StreamFault};
use trex_sched::Mode;

/// The greatest packet or burst count.
const GREATEST_COUNT: u64 = 4_294_967_295;

/// The greatest gap, in nanoseconds.
const LONGEST_GAP: u64 = 1_000_000_000_000_000_000;

/// The rate of a mode.
#[tactic(auto, unfolding(crate::specs::Shape::rate_wrong))]
fn rate_of(mode: &Value) -> Option<RawRate>
    ensures value { result ≡ (if rate_wrong (view mode.now) then None else Some (rate (view mode.now))) }
    ensures within { IfSome result (λ rate. rate.value < 10 ^ 30) }
{
    let rate = object_field(mode, "rate")?;
    let kind = rate_field(rate, "type")?;
    let value = millionths_field(rate, "value")?;
    Some(RawRate { kind, value })
}

/// The count under a name.
fn count_field(mode: &Value, name: &str) -> Option<u32>
    ensures { result ≡ field name.now (whole 4294967295) None (view mode.now) }
{
    let count = whole_field(mode, name, GREATEST_COUNT, None)?;
    Some(count as u32)
}

/// The packets of a multi-burst.
#[tactic(auto, unfolding(crate::specs::Shape::count_rules))]
fn multi_burst(mode: &Value) -> Result<Mode, StreamFault>
    ensures value { Gives (λ m. m) result (unless (count_rules ModeWord.MultiBurst (view mode.now)) (counted ModeWord.MultiBurst (view mode.now))) }
    ensures gap { IfOk result HasGap }
{
    let per_burst = count_field(mode, "pkts_per_burst").ok_or(StreamFault::of_stream(
        Rule::BadCount,
    ))?;
    let count = count_field(mode, "count").ok_or(StreamFault::of_stream(Rule::BadCount))?;
    let ibg = gap_field(mode, "ibg", LONGEST_GAP).ok_or(StreamFault::of_stream(Rule::BadIbg))?;
    Ok(Mode::MultiBurst {
        per_burst,
        ibg,
        count,
    })
}

/// How a mode of that word sends its packets.
#[tactic(auto, unfolding(crate::specs::Shape::count_rules))]
fn counted(word: ModeWord, mode: &Value) -> Result<Mode, StreamFault>
    ensures value { Gives (λ m. m) result (unless (count_rules word (view mode.now)) (counted word (view mode.now))) }
    ensures gap { IfOk result HasGap }
{
    match word {
        ModeWord::Continuous => Ok(Mode::Continuous),
        ModeWord::SingleBurst => {
            let total = count_field(mode, "total_pkts").ok_or(StreamFault::of_stream(
                Rule::BadCount,
            ))?;
            Ok(Mode::SingleBurst { total })
        }
        ModeWord::MultiBurst => multi_burst(mode),
    }
}

/// The rate and the mode of a stream.
#[tactic(auto, unfolding(crate::specs::Shape::mode_rules))]
pub(crate) fn mode_of(stream: &Value) -> Result<(RawRate, Mode), StreamFault>
    ensures value { Gives (λ p. p) result (unless (mode_rules (view stream.now))
        (rate (value row.mode (view stream.now)), counted (word_of (view stream.now)) (value row.mode (view stream.now)))) }
    ensures rate { IfOk result (λ p. p.0.value < 10 ^ 30) }
    ensures gap { IfOk result (λ p. HasGap p.1) }
{
    let mode = object_field(stream, "mode").ok_or(StreamFault::of_stream(Rule::BadMode))?;
    let word = mode_field(mode, "type").ok_or(StreamFault::of_stream(Rule::BadMode))?;
    let rate = rate_of(mode).ok_or(StreamFault::of_stream(Rule::BadRate))?;
    let times = counted(word, mode)?;
    Ok((rate, times))
}
