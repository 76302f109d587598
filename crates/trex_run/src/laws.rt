//! The laws of a run.

ghost use Rattle.std.specs.Prelude.{◌≡◌, ℕ, List, None, Some, length, slice_get};
ghost use Rattle.trex_pcap.specs.Reading.{IsCapture};
ghost use Rattle.trex_io.specs.Seen.{Seen};
ghost use Rattle.trex_profile.specs.Stream.{Stream};
ghost use Rattle.trex_profile.specs.declared.flow.Flow.{Flow as AFlow};
ghost use Rattle.trex_stats.specs.Arrivals.{line_of};
ghost use Rattle.trex_stats.specs.Counts.{arrivals};
ghost use Rattle.trex_stats.specs.Laws.{clean_line};
ghost use Rattle.trex_words.specs.Asked.{IsRunAsk};
ghost use Rattle.trex_words.specs.declared.asked.RunAsk.{RunAsk as ARunAsk};
ghost use Rattle.trex_run.specs.Capture.{capture, sent_of, sequence};
ghost use Rattle.trex_run.specs.Clean.{OwnsFlow};

use trex_core::plans_rise;
use trex_pcap::reads_back;
use trex_profile::{Profile, profiles_can_be_walked};
use trex_sched::numbers_follow;
use trex_stamp::stamps_are_found;
use trex_stats::measures_clean;

/// Law: a run measures clean. Its capture has records, and where the stream at a position has a flow, and no packet of another stream ends in a
/// latency header of that flow, the flow's line over them has the number of the stream's packets, and zeros.
pub fn runs_measure_clean(profile: &Profile)
    ensures { (ask : ARunAsk) (position : ℕ) (flow : AFlow) (s : Stream) → IsRunAsk ask → slice_get profile.now position ≡ Some s → s.flow ≡ Some flow
        → OwnsFlow position flow.number (sequence profile.now ask)
        → (rs : List Seen) × IsCapture (capture profile.now ask) rs None
        × (line_of flow.number (arrivals rs flow.number) ≡ clean_line flow.number (length (sent_of position (sequence profile.now ask)))) }
{
    // for the proof alone: what `len` ensures of a profile is that each stream keeps the rules
    let _streams = profile.len();
    measures_clean();
    numbers_follow();
    plans_rise();
    profiles_can_be_walked();
    reads_back();
    stamps_are_found();
}
