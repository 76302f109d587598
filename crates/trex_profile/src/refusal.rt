// The rule that is broken, and where.

ghost use Rattle.std.specs.Prelude.{◌≡◌};

use crate::rule::Rule;

/// Why a profile is refused: the first rule that it breaks, and where.
#[derive(Clone, Copy, Debug, PartialEq, Eq)]
pub struct Refusal {
    pub rule: Rule,
    /// The position of the stream in the array, where the rule is about one.
    pub stream: Option<u32>,
    /// The place of the instruction or the layer, where the rule is about one.
    pub at: Option<u32>,
}

impl Refusal {
    ghost use Rattle.trex_profile.specs.Refusal.{of_document};

    /// The refusal for a rule about the whole document.
    pub fn of_document(rule: Rule) -> Refusal
        ensures { result ≡ of_document rule }
    {
        Refusal {
            rule,
            stream: None,
            at: None,
        }
    }
}

/// A rule that one stream breaks, and the place of the instruction or the layer, where the rule is about one.
#[derive(Clone, Copy, Debug, PartialEq, Eq)]
pub struct Breach {
    pub rule: Rule,
    pub at: Option<u32>,
}

impl Breach {
    ghost use Rattle.trex_profile.specs.Refusal.{whole_stream, at_place, in_stream};

    /// The breach of a rule about the stream as a whole.
    pub fn of_stream(rule: Rule) -> Breach
        ensures { result ≡ whole_stream rule }
    {
        Breach { rule, at: None }
    }

    /// The breach of a rule at an instruction or a layer.
    pub fn at_place(at: u32, rule: Rule) -> Breach
        ensures { result ≡ at_place at rule }
    {
        Breach { rule, at: Some(at) }
    }

    /// The refusal for this breach in the stream at a position.
    pub fn in_stream(self, stream: u32) -> Refusal
        ensures { result ≡ in_stream stream self }
    {
        Refusal {
            rule: self.rule,
            stream: Some(stream),
            at: self.at,
        }
    }
}
