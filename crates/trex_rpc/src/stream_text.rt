// The text of a stream, looked at by itself.

ghost use Rattle.std.specs.Prelude.{◌≡◌, IfOk};
ghost use Rattle.trex_json.specs.Verdict.{verdict};
ghost use Rattle.trex_rpc.specs.Answer.{alone, may_be_mended, unmended};

use std::alloc::Global;
use trex_io::Memory;
use trex_json::{ProfileFault, read_profile};
use trex_profile::{Refusal, Rule};

/// Whether a stream that is added later may mend a broken rule.
fn may_be_mended(rule: Rule) -> bool
    ensures { result ≡ may_be_mended rule }
{
    match rule {
        Rule::NoSuchStream => true,
        _ => false,
    }
}

/// The profile of one stream, as a JSON text.
#[tactic(auto, unfolding(crate::specs::Answer::alone))]
fn alone(alloc: Global, text: &[u8]) -> Result<Vec<u8>, Memory>
    ensures { IfOk result (λ all. all.items ≡ alone text.now) }
{
    let mut all = Vec::from_slice(alloc, b"[")?;
    all.extend_from_slice(text)?;
    all.push(b']')?;
    Ok(all)
}

/// The rule that a profile of one stream breaks, but for one that a later stream may mend.
pub(crate) fn broken_rule(alloc: Global, text: &[u8]) -> Result<Option<Refusal>, Memory>
    ensures { IfOk result (λ broken. broken ≡ unmended (verdict (alone text.now))) }
{
    match read_profile(alloc, &alone(alloc, text)?) {
        Ok(_) => Ok(None),
        Err(ProfileFault::Refused(refusal)) => {
            if may_be_mended(refusal.rule) {
                Ok(None)
            } else {
                Ok(Some(refusal))
            }
        }
        Err(ProfileFault::Memory) => Err(Memory),
    }
}
