// The laws of batches, of turns and of a plan's packets.

ghost use Rattle.std.specs.Prelude.{◌≡◌, ◌+◌, ◌<◌, ◌≤◌, List, None, length};
ghost use Rattle.std.specs.List.{AllByRecursion};
ghost use Rattle.trex_core.specs.Batches.{IsWithin, batch_of};
ghost use Rattle.trex_core.specs.Plan.{PlanOf, frames_of_plan};
ghost use Rattle.trex_core.specs.Works.{IsSettled, Work, turned};
ghost use Rattle.trex_merge.specs.Frames.{Frame, key_of};
ghost use Rattle.trex_merge.specs.Machine.{IsPrefixOf};
ghost use Rattle.trex_merge.specs.Order.{AreDistinct, IsRising, ordered};
ghost use Rattle.trex_merge.specs.Queues.{stem};
ghost use Rattle.trex_profile.specs.Admission.{refusal_of};

use trex_merge::order_is_unique;
use trex_profile::profiles_can_be_walked;
use trex_sched::{Slot, chains_are_apart, entries_rise};

/// What a batch holds after a refill is the longest beginning that fits.
pub fn batches_are_longest()
    ensures prefix { (frames : List Frame) → IsPrefixOf (batch_of frames) frames }
    ensures within { (frames : List Frame) → IsWithin (batch_of frames) }
    ensures longest { (front frames : List Frame) → IsWithin front → IsPrefixOf front frames → length front ≤ length (batch_of frames) }
{}

/// A turn keeps a core's packets, and after it as many wait as fit.
pub fn turns_keep_packets()
    ensures core { (work : Work) → (turned work).core ≡ work.core }
    ensures turns { (work : Work) → (turned work).turns ≡ work.turns + 1 }
    ensures stem { (work : Work) → stem (turned work).queue ≡ stem work.queue }
    ensures settled { (work : Work) → IsWithin work.queue.waiting → IsSettled (turned work).queue }
{}

/// The packets of the plan of a profile that keeps the rules.
pub fn plans_rise()
    // They rise strictly, and no two have one stream and one number.
    ensures rising { (plan : PlanOf) → refusal_of plan.profile ≡ None → IsRising key_of (frames_of_plan plan) }
    ensures distinct { (plan : PlanOf) → refusal_of plan.profile ≡ None → AreDistinct key_of (frames_of_plan plan) }
    // So in order they are as they are.
    ensures kept { (plan : PlanOf) → refusal_of plan.profile ≡ None → ordered key_of (frames_of_plan plan) ≡ frames_of_plan plan }
    // Each stands below the duration.
    ensures below { (plan : PlanOf) → AllByRecursion (λ frame. frame.time < plan.duration) (frames_of_plan plan) }
{
    chains_are_apart();
    entries_rise();
    order_is_unique::<Slot>();
    profiles_can_be_walked();
}
