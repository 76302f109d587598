// The laws of an import.

ghost use Rattle.std.specs.Prelude.{◌≡◌, ℕ, ◌^◌, ◌<◌, List, None, Ok, Some, decimal, IsUtf8};
ghost use Rattle.base64.specs.Engines.{standard};
ghost use Rattle.base64.specs.GeneralPurpose.{IsBytes, decoded_of, encode_of};
ghost use Rattle.serde_json.specs.Read.{read};
ghost use Rattle.trex_decimal.specs.Decimal.{scaled_of, whole_of};
ghost use Rattle.trex_decimal.specs.Quoted.{quoted};
ghost use Rattle.trex_import.specs.Document.{document};
ghost use Rattle.trex_import.specs.Drafts.{HaveBytes};
ghost use Rattle.trex_import.specs.Fit.{unfit_of};
ghost use Rattle.trex_import.specs.Imported.{imported, microseconds};
ghost use Rattle.trex_import_law.specs.Resent.{RunsThrough, resent, sent_again, streams_of};
ghost use Rattle.trex_io.specs.Seen.{Seen};
ghost use Rattle.trex_json.specs.Verdict.{verdict};
ghost use Rattle.trex_pcap.specs.Writing.{capture_of};
ghost use Rattle.trex_profile.specs.Stream.{Stream};
ghost use Rattle.trex_run.specs.Capture.{capture, sequence};
ghost use Rattle.trex_words.specs.declared.asked.RunAsk.{RunAsk};

/// Law: the text that is written for the records of a capture is UTF-8, has no number token outside its JSON texts, and reads as its entries.
pub fn imports_read_back()
    ensures utf8 { (rs : List Seen) → HaveBytes rs → IsUtf8 (imported rs) }
    ensures quoted { (rs : List Seen) → HaveBytes rs → quoted (imported rs) ≡ imported rs }
    ensures reads { (rs : List Seen) → HaveBytes rs → read (imported rs) ≡ Some (document rs) }
{}

/// Law: the three texts of an entry say its gap in ns, its packet and its id.
pub fn entries_read_back()
    ensures gap { (ns : ℕ) → ns < 10 ^ 18 → scaled_of (microseconds ns) 3 ≡ Ok ns }
    ensures packet { (bytes : List ℕ) → IsBytes bytes → decoded_of standard (encode_of standard bytes) ≡ Some bytes }
    ensures id { (id : ℕ) → id < 2 ^ 64 → whole_of (decimal id) ≡ Some id }
{}

/// Law: a run of an import sends the records again. The text of records that are fit is a profile: each has its stream. A run of it for the
/// longest duration, on any number of cores and from any base, sends each record's bytes once and in order, and writes the capture of them.
pub fn imports_run_back()
    ensures accepted { (rs : List Seen) → unfit_of rs ≡ None → HaveBytes rs → verdict (imported rs) ≡ Ok (streams_of rs) }
    ensures sends { (rs : List Seen) → unfit_of rs ≡ None → (ask : RunAsk) → RunsThrough ask rs → sequence (streams_of rs) ask ≡ sent_again rs }
    ensures captured { (rs : List Seen) → unfit_of rs ≡ None → HaveBytes rs
        → (p : List Stream) × (verdict (imported rs) ≡ Ok p)
        × ((ask : RunAsk) → RunsThrough ask rs → capture p ask ≡ capture_of (resent ask.base rs)) }
{}
