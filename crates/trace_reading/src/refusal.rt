//! The rules that refuse a trace file, and a refusal.

ghost use Rattle.std.specs.Prelude.{◌≡◌};
ghost use Rattle.trace_reading.specs.Rule.{rule_view, rule_name};

use ila_file::Note;

/// The rules that refuse a trace file, in the order in which they are judged: each over the whole file before the next.
#[derive(Clone, Copy, PartialEq, Eq, Debug)]
pub enum TraceRule {
    /// The bytes are not a JSON document.
    BadJson,
    /// The file is no trace of the design: a key is missing or is none of a trace, a name is that of no register or input, or a value
    /// does not fit.
    BadShape,
    /// No obligation has the name.
    UnknownObligation,
    /// A register or an input has no value, or there are not as many cycles as the obligation speaks of.
    MissingValue,
}

impl TraceRule {
    /// The name that is printed for the rule.
    pub fn name(self) -> &'static str
        ensures { result.now ≡ rule_name (rule_view self) }
    {
        match self {
            TraceRule::BadJson => "T1 BadJson",
            TraceRule::BadShape => "T2 BadShape",
            TraceRule::UnknownObligation => "T3 UnknownObligation",
            TraceRule::MissingValue => "T4 MissingValue",
        }
    }
}

/// Why a trace file is refused: the first rule that it breaks, and where.
#[derive(Drop)]
pub struct TraceRefusal {
    pub rule: TraceRule,
    /// What is wrong, and in which place.
    pub note: Note,
}
