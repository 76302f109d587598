//! A run: the packets of one core that stand before those of all others are sent at once.

ghost use Rattle.std.specs.Prelude.{◌≡◌, ◌<◌, ◌≤◌, length, map, take};
ghost use Rattle.std.specs.List.{AllByRecursion};
ghost use Rattle.trex_core.specs.Records.{waiting_of};
ghost use Rattle.trex_core.specs.Texts.{records_text};
ghost use Rattle.trex_merge.specs.Queues.{at_place, waiting_at};
ghost use Rattle.trex_merge.specs.Runs.{dropped};
ghost use Rattle.trex_run.specs.Ready.{base_at, marks_of, queues_of, run_at};
ghost use Rattle.trex_run.specs.State.{IsShort};

use trex_core::{CoreWork, Run};
use trex_merge::Key;

/// The run at a core at which a packet waits.
pub(crate) fn run_of<'w>(
    works: &'w [CoreWork<'_>],
    feed: usize,
    before: Option<Key>,
    left: u64,
) -> Run<'w>
    requires { feed < length works.now }
    ensures packets { result.packets.now ≡ map waiting_of (run_at feed before left (queues_of works.now)) }
    ensures text { result.text.now ≡ records_text (base_at feed works.now) (run_at feed before left (queues_of works.now)) }
    ensures short { AllByRecursion IsShort (waiting_at feed (queues_of works.now)) }
{
    works[feed].run_before(before, left)
}

/// Takes the first packets that wait at a core away, so many, whose records have so many bytes.
pub(crate) fn drop_run(works: &mut [CoreWork<'_>], feed: usize, packets: usize, bytes: usize)
    requires within { feed < length works.old }
    requires packets { packets ≤ length (waiting_at feed (queues_of works.old)) }
    requires bytes { bytes ≡ length (records_text (base_at feed works.old) (take packets (waiting_at feed (queues_of works.old)))) }
    ensures queues { queues_of works.new ≡ at_place (dropped packets) feed (queues_of works.old) }
    ensures marks { marks_of works.new ≡ marks_of works.old }
{
    works[feed].drop_run(packets, bytes);
}
