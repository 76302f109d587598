// Which profiles are admitted: each stream is looked at by itself, then all of them together.

ghost use Rattle.std.specs.Prelude.{map, All, length, ◌≤◌, IfOk};
ghost use Rattle.trex_profile.specs.Admission.{IsRawProfile, admitted};
ghost use Rattle.trex_profile.specs.Answer.{Gives};
ghost use Rattle.trex_profile.specs.Member.{member_stream, IsMember};
ghost use Rattle.trex_profile.specs.Order.{first_each, unless};
ghost use Rattle.trex_profile.specs.Rules.{value_refusal};
ghost use Rattle.trex_profile.specs.Stream.{IsRawStream, raw_stream};

use crate::fault::AdmitFault;
use crate::member::Member;
use crate::profile::Profile;
use crate::raw::{RawProfile, RawStream};
use crate::rules::cross::follow;
use std::alloc::Global;

/// The streams whose values keep the rules, or the first broken rule.
fn each_stream(alloc: Global, raws: Vec<RawStream>) -> Result<Vec<Member>, AdmitFault>
    requires few { length raws.items ≤ 4096 }
    requires ranges { All IsRawStream raws.items }
    ensures value { Gives (λ members. map member_stream members.items) result
        (unless (first_each value_refusal 0 (map raw_stream raws.items)) (map raw_stream raws.items)) }
    ensures specs { IfOk result (λ members. All IsMember members.items) }
{
    let mut members = Vec::new(alloc);
    let mut at = 0;
    for raw in raws {
        match Member::of(alloc, raw) {
            Ok(member) => members.push(member)?,
            Err(fault) => return Err(fault.in_stream(at)),
        }
        at += 1;
    }
    Ok(members)
}

/// Admits a profile, unless a rule on its values or over its streams is broken: the first one is the refusal.
pub fn admit(alloc: Global, raw: RawProfile) -> Result<Profile, AdmitFault>
    requires { IsRawProfile raw }
    ensures { Gives (λ streams. streams) result (admitted (map raw_stream raw.streams.items)) }
{
    let members = each_stream(alloc, raw.streams)?;
    let following = follow(alloc, &members)?;
    Ok(Profile::new(alloc, members, &following)?)
}
