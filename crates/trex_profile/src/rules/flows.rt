// The rule that no two streams have one flow number.

ghost use Rattle.std.specs.Prelude.{◌≡◌, ◌≤◌, ◌++◌, length, map, None, Some, Err, OnOk, IfOk, false};
ghost use Rattle.std.specs.Option.{option_to_list};
ghost use Rattle.trex_profile.specs.declared.fault.Fault.TheVariants.{Refused as IsRefused};
ghost use Rattle.trex_profile.specs.Cross.{has_flow, flow_refusal};
ghost use Rattle.trex_profile.specs.Member.{member_stream};
ghost use Rattle.trex_profile.specs.Order.{first_each};

use crate::fault::AdmitFault;
use crate::flow::number_of;
use crate::member::Member;
use crate::refusal::{Breach, Refusal};
use crate::rule::Rule;
use indexmap::IndexSet;
use std::alloc::{AllocFailed, Global};

/// Notes a flow number, where there is one, and answers whether it was noted before.
fn note(found: &mut IndexSet<u32>, number: Option<u32>) -> Result<bool, AllocFailed<u32>>
    ensures again { IfOk result (λ again. again ≡ has_flow found.old.keys number) }
    ensures noted { IfOk result (λ again. again ≡ false → found.new.keys ≡ found.old.keys ++ option_to_list number) }
{
    let Some(number) = number else {
        return Ok(false);
    };
    let (_, is_new) = found.insert_full(number)?;
    Ok(!is_new)
}

/// The refusal of the first stream whose flow number an earlier one has.
pub(crate) fn differ_in_flows(alloc: Global, members: &[Member]) -> Result<(), AdmitFault>
    requires { length members.now ≤ 4096 }
    ensures kept { OnOk result (first_each (flow_refusal (map member_stream members.now)) 0 (map member_stream members.now) ≡ None) }
    ensures refused { (refusal : Refusal) → result ≡ Err (IsRefused refusal)
        → first_each (flow_refusal (map member_stream members.now)) 0 (map member_stream members.now) ≡ Some refusal }
{
    let mut found = IndexSet::new(alloc);
    for (at, member) in members.iter().enumerate() {
        if note(&mut found, number_of(member.spec.flow))? {
            return Err(AdmitFault::Refused(Breach::of_stream(Rule::DuplicateFlow).in_stream(
                at as u32,
            )));
        }
    }
    Ok(())
}
