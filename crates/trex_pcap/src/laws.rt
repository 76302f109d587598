// The laws of captures.

ghost use Rattle.std.specs.Prelude.{◌≡◌, ℕ, ◌≤◌, List, length, map, Option, None};
ghost use Rattle.trex_io.specs.Seen.{Seen};
ghost use Rattle.trex_pcap.specs.declared.fault.CaptureFault.{CaptureFault};
ghost use Rattle.trex_pcap.specs.Reading.{IsCapture};
ghost use Rattle.trex_pcap.specs.Writing.{AllFit, Packet, capture_of, seen_of};

/// A capture that was written reads back as its packets, without a fault.
pub fn reads_back()
    ensures { (packets : List Packet) → AllFit packets → length packets ≤ 100000000
        → IsCapture (capture_of packets) (map seen_of packets) None }
{}

/// The bytes of a capture have one reading.
pub fn one_reading()
    ensures { (bytes : List ℕ) (rs ss : List Seen) (e f : Option CaptureFault)
        → IsCapture bytes rs e → IsCapture bytes ss f → (rs ≡ ss) × (e ≡ f) }
{}
