//! The rules on digits, constants, widths, selects and memories: which of them an expression breaks where it stands.

use crate::kind::RuleKind;
use crate::piece::Site;
use v_size::{Broken, Names, broken_in, constant_in};
use v_syntax::tree::Expression;

/// What is asked of an expression where it stands, besides that it may have to be a constant.
#[derive(Clone, Copy, PartialEq, Eq)]
pub(crate) enum Stance {
    /// Nothing.
    Plain,
    /// It bounds a declared range.
    Bound,
    /// It is a part of a concatenation.
    Part,
    /// It is an item of a `casez`.
    WildLabel,
}

/// Where an expression or a target stands.
#[derive(Clone, Copy)]
pub(crate) struct At {
    pub(crate) site: Site,
    /// Whether it stands in no other expression or target.
    pub(crate) is_outer: bool,
    pub(crate) is_constant: bool,
    /// Whether it is asked for the rule: where what it stands in keeps the rule, its parts do so too.
    pub(crate) is_asked: bool,
    pub(crate) stance: Stance,
}

/// The place of an expression or a target that stands in no other one.
pub(crate) fn outer(site: Site, is_constant: bool) -> At {
    At {
        site,
        is_outer: true,
        is_constant,
        is_asked: true,
        stance: Stance::Plain,
    }
}

impl At {
    /// The place of what stands directly in it.
    pub(crate) fn inner(self, is_asked: bool) -> At {
        At {
            is_outer: false,
            is_asked,
            stance: Stance::Plain,
            ..self
        }
    }

    /// The same, where it is to be a constant.
    pub(crate) fn constant(self) -> At {
        At {
            is_constant: true,
            ..self
        }
    }

    /// The same place with this asked.
    pub(crate) fn with(self, stance: Stance) -> At {
        At { stance, ..self }
    }
}

/// Whether a kind is a rule on expressions.
pub(crate) fn is_rule(kind: RuleKind) -> bool {
    matches!(
        kind,
        RuleKind::HasXz
            | RuleKind::BadConstant
            | RuleKind::WidthOver128
            | RuleKind::BadSelect
            | RuleKind::MemoryUse
    )
}

/// Whether the rule of a kind is one of the broken ones.
pub(crate) fn has_rule(kind: RuleKind, broken: Broken) -> bool {
    match kind {
        RuleKind::HasXz => broken.has_xz,
        RuleKind::BadConstant => broken.bad_constant,
        RuleKind::WidthOver128 => broken.width_over_128,
        RuleKind::BadSelect => broken.bad_select,
        RuleKind::MemoryUse => broken.memory_use,
        _ => false,
    }
}

/// Whether a number breaks the rule by how it is written, where it is known.
fn digits_break(expression: &Expression<'_>, kind: RuleKind, stance: Stance) -> Option<bool> {
    let Expression::Number(number) = expression else {
        return None;
    };
    match (stance, kind) {
        (Stance::WildLabel, RuleKind::HasXz) => {
            Some(number.has_unknown || (number.has_wild && !(number.sized && !number.signed)))
        }
        (Stance::Part, RuleKind::BadConstant) if !number.sized => Some(true),
        _ => None,
    }
}

/// Whether a constant expression breaks the rule by itself.
fn constant_breaks(
    expression: &Expression<'_>,
    names: Names<'_, '_>,
    kind: RuleKind,
    at: At,
) -> bool {
    let constant = constant_in(expression, names);
    if at.stance == Stance::Bound && kind == RuleKind::BadConstant {
        if let Some(number) = constant.number {
            return number.negative || number.magnitude > 65_535;
        }
    }
    has_rule(kind, constant.broken)
}

/// Whether an expression breaks the rule of a kind where it stands.
pub(crate) fn value_breaks(
    expression: &Expression<'_>,
    names: Names<'_, '_>,
    kind: RuleKind,
    at: At,
) -> bool {
    if let Some(is_broken) = digits_break(expression, kind, at.stance) {
        return is_broken;
    }
    if at.is_constant {
        return constant_breaks(expression, names, kind, at);
    }
    has_rule(kind, broken_in(expression, names))
}
