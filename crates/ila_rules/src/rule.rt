//! The rules that refuse a model file, and a refusal.

ghost use Rattle.std.specs.Prelude.{◌≡◌};
ghost use Rattle.ila_rules.specs.Rule.{rule_view, rule_name};

use ila_file::Note;

/// The rules that refuse a model file, in the order in which they are judged: each over the whole file before the next.
#[derive(Clone, Copy, PartialEq, Eq, Debug)]
pub enum ModelRule {
    /// The bytes are not a JSON document.
    BadJson,
    /// Something has another shape than it must have, or a key is missing.
    BadShape,
    /// An object has a key that objects of its kind do not have.
    UnknownKey,
    /// The model's name or a declared one is not legal.
    BadName,
    /// Two states, inputs or definitions, or two instructions, share a name.
    DuplicateName,
    /// A term uses a name that is not visible there, or an update names no state.
    UnknownName,
    /// A stated width or index is out of its range.
    BadWidth,
    /// A term has no sort, or its place wants another sort.
    BadSort,
    /// A constant or an initial value does not fit its width.
    BadNumber,
    /// A memory's update is not that memory with words stored to it.
    MemoryCopy,
    /// Children nest deeper than 3.
    TooDeepChild,
    /// A child's steps are not 1 to 4,096.
    BadSteps,
}

impl ModelRule {
    /// The name that is printed for the rule.
    pub fn name(self) -> &'static str
        ensures { result.now ≡ rule_name (rule_view self) }
    {
        match self {
            ModelRule::BadJson => "M1 BadJson",
            ModelRule::BadShape => "M2 BadShape",
            ModelRule::UnknownKey => "M3 UnknownKey",
            ModelRule::BadName => "M4 BadName",
            ModelRule::DuplicateName => "M5 DuplicateName",
            ModelRule::UnknownName => "M6 UnknownName",
            ModelRule::BadWidth => "M7 BadWidth",
            ModelRule::BadSort => "M8 BadSort",
            ModelRule::BadNumber => "M9 BadNumber",
            ModelRule::MemoryCopy => "M10 MemoryCopy",
            ModelRule::TooDeepChild => "M11 TooDeepChild",
            ModelRule::BadSteps => "M12 BadSteps",
        }
    }
}

/// Why a model file is refused: the first rule that it breaks, and where.
#[derive(Drop)]
pub struct ModelRefusal {
    pub rule: ModelRule,
    /// The first place, in the order in which a model is gone through, at which the rule is broken.
    pub note: Note,
}
