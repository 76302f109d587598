// The profile's entries while the records of a capture come, and the text at their end.

ghost use Rattle.std.specs.Prelude.{◌≡◌, ◌+◌, ◌-◌, ◌<◌, ◌++◌, ◌∷◌, [], List, map, None, false, IfOk, OnOk};
ghost use Rattle.std.specs.Option.{option_or};
ghost use Rattle.serde_json.specs.Data.{array};
ghost use Rattle.serde_json.specs.View.{items_view, view};
ghost use Rattle.serde_json.specs.Written.{compact_text, items_have_float};
ghost use Rattle.trex_io.specs.Seen.{Seen};
ghost use Rattle.trex_import.specs.Document.{entry_data};
ghost use Rattle.trex_import.specs.Drafts.{StandsFor, Told};
ghost use Rattle.trex_import.specs.Fit.{record_unfit};

use crate::entry::entry;
use crate::fit::{Place, record_unfit};
use serde_json::Value;
use std::alloc::{AllocError, Global};
use trex_io::Memory;
use trex_measure::Keep;
use trex_pcap::Unfit;

/// The most bytes of a profile's text.
const LONGEST_TEXT: usize = 33_554_432;

/// The entries of the records so far, until one of them breaks a rule. From then on no entry is made.
#[derive(Drop)]
pub(crate) struct Draft {
    alloc: Global,
    first: Option<u64>,
    last: Option<u64>,
    records: u64,
    unfit: Option<Unfit>,
    entries: Vec<Value>,
}

/// Why a draft has no text.
#[derive(Clone, Copy, Drop)]
pub(crate) enum TextFault {
    /// A rule is broken.
    Broken(Unfit),
    /// Want of memory.
    Memory,
}

/// The text of an array of entries, without spaces.
fn array_text(alloc: Global, entries: Vec<Value>) -> Result<Vec<u8>, AllocError>
    ensures { IfOk result (λ text. items_have_float (items_view entries.items) ≡ false
        → text.items ≡ compact_text (array (items_view entries.items))) }
{
    Value::Array(entries).to_vec(alloc)
}

impl Draft {
    /// A draft of no records.
    pub(crate) fn new(alloc: Global) -> Draft
        ensures stands { StandsFor result [] }
        ensures records { result.records ≡ 0 }
    {
        Draft {
            alloc,
            first: None,
            last: None,
            records: 0,
            unfit: None,
            entries: Vec::new(alloc),
        }
    }

    /// Keeps the rule that a record breaks at its place, or its entry, unless a rule was broken before.
    fn keep(&mut self, place: Place, time: u64, bytes: &[u8], original: u32) -> Result<(), Memory>
        ensures unfit { OnOk result (self.new.unfit ≡ option_or self.old.unfit
            (record_unfit place.start place.before place.number
            (record { time = time; bytes = bytes.now; original = original }))) }
        ensures entries { OnOk result (self.new.unfit ≡ None → map view self.new.entries.items
            ≡ map view self.old.entries.items ++ entry_data place.number (time - place.start) bytes.now ∷ []) }
        ensures same { OnOk result (self.new.records ≡ self.old.records) }
    {
        if self.unfit.is_some() {
            return Ok(());
        }
        self.unfit = record_unfit(place, time, bytes, original);
        if self.unfit.is_none() {
            let ns = time.saturating_sub(place.start);
            let entry = entry(self.alloc, place.number, ns, bytes)?;
            self.entries.push(entry)?;
        }
        Ok(())
    }

    /// The text of the profile, or what makes the records unfit.
    pub(crate) fn text(self) -> Result<Vec<u8>, TextFault>
        ensures { (rs : List Seen) → StandsFor self rs → Told result rs }
    {
        if let Some(unfit) = self.unfit {
            return Err(TextFault::Broken(unfit));
        }
        let Ok(text) = array_text(self.alloc, self.entries) else {
            return Err(TextFault::Memory);
        };
        if text.len() > LONGEST_TEXT {
            return Err(TextFault::Broken(Unfit::TooLarge));
        }
        Ok(text)
    }
}

impl Keep for Draft {
    ghost stands = { StandsFor };

    ghost kept = { λ draft. draft.records };

    ghost mark = { λ draft. [] };

    fn take(&mut self, time: u64, bytes: &[u8], original: u32) -> Result<(), Memory> {
        let place = Place {
            start: self.first.unwrap_or(time),
            before: self.last.unwrap_or(time),
            number: self.records + 1,
        };
        self.keep(place, time, bytes, original)?;
        self.first = Some(place.start);
        self.last = Some(time);
        self.records += 1;
        Ok(())
    }
}
