//! Which rules are broken, where an expression stands, and the kinds of refusal.
ghost use Rattle.std.specs.Prelude.{◌≡◌, ◌||◌};
ghost use Rattle.verilog_rules.specs.Expression as rules;
ghost use Rattle.v_size.specs.Rule.{coded, both, unbroken, kind_option, first_kind};

/// Why an expression is refused, in the order in which the kinds are answered.
#[derive(Clone, Copy, PartialEq, Eq, Debug)]
pub enum Kind {
    /// A name is not declared.
    Undeclared,
    /// A number has an x, z or `?` digit.
    HasXz,
    /// A constant reads a net or a variable, divides by 0, or has an exponent below 0; a replication count or the width of a
    /// select is below 1; `/`, `%` or `**` stands where no constant is wanted; an unsized number is a part of a concatenation.
    BadConstant,
    /// More than 128 bits.
    WidthOver128,
    /// A select of a name without range, a second select of what is no memory, or a part select against the declared direction.
    BadSelect,
    /// A memory without an index, with a first select that is no single index, or with more than 65,536 words.
    MemoryUse,
}

/// Which rules are broken. The last is no kind: it says that a tree is of no text.
#[derive(Clone, Copy, PartialEq, Eq, Debug)]
pub struct Broken {
    pub undeclared: bool,
    pub has_xz: bool,
    pub bad_constant: bool,
    pub width_over_128: bool,
    pub bad_select: bool,
    pub memory_use: bool,
    pub misshapen: bool,
}

/// Where an expression stands: where anything may be read, or where a constant is wanted, in the context of a width, where that
/// has a value, and a sign.
#[derive(Clone, Copy, PartialEq, Eq, Debug)]
pub enum Position {
    Anywhere,
    Constant(Option<u32>, bool),
}

/// What is found out of an expression: the rules that it breaks, its width, where that has a value, and whether it is a number
/// without a size.
#[derive(Clone, Copy, PartialEq, Eq, Debug)]
pub(crate) struct Judged {
    pub(crate) broken: Broken,
    pub(crate) width: Option<u32>,
    pub(crate) unsized_number: bool,
}

/// No rule.
pub fn nothing() -> Broken
    ensures { result ≡ coded rules.nothing }
{
    Broken {
        undeclared: false,
        has_xz: false,
        bad_constant: false,
        width_over_128: false,
        bad_select: false,
        memory_use: false,
        misshapen: false,
    }
}

/// Whether one of the two holds.
fn or(x: bool, y: bool) -> bool
    ensures { result ≡ (x || y) }
{
    x || y
}

/// The rules that one or the other breaks.
pub fn also(x: Broken, y: Broken) -> Broken
    ensures { result ≡ both x y }
{
    Broken {
        undeclared: or(x.undeclared, y.undeclared),
        has_xz: or(x.has_xz, y.has_xz),
        bad_constant: or(x.bad_constant, y.bad_constant),
        width_over_128: or(x.width_over_128, y.width_over_128),
        bad_select: or(x.bad_select, y.bad_select),
        memory_use: or(x.memory_use, y.memory_use),
        misshapen: or(x.misshapen, y.misshapen),
    }
}

/// The rule on constants, where it is broken.
pub fn constant_if(broken: bool) -> Broken
    ensures { result ≡ coded (rules.constant_if broken) }
{
    Broken {
        bad_constant: broken,
        ..nothing()
    }
}

/// The rule on selects, where it is broken.
pub(crate) fn select_if(broken: bool) -> Broken
    ensures { result ≡ coded (rules.select_if broken) }
{
    Broken {
        bad_select: broken,
        ..nothing()
    }
}

/// The rule on widths, where it is broken.
pub fn width_if(broken: bool) -> Broken
    ensures { result ≡ coded (rules.width_if broken) }
{
    Broken {
        width_over_128: broken,
        ..nothing()
    }
}

/// Whether no rule is broken.
pub fn is_unbroken(broken: Broken) -> bool
    ensures { result ≡ unbroken broken }
{
    !broken.undeclared
        && (!broken.has_xz
            && (!broken.bad_constant
                && (!broken.width_over_128
                    && (!broken.bad_select && (!broken.memory_use && !broken.misshapen)))))
}

/// The first broken rule in the order of the kinds.
pub(crate) fn first_kind(broken: Broken) -> Option<Kind>
    ensures { kind_option result ≡ first_kind broken }
{
    if broken.undeclared {
        return Some(Kind::Undeclared);
    }
    if broken.has_xz {
        return Some(Kind::HasXz);
    }
    if broken.bad_constant {
        return Some(Kind::BadConstant);
    }
    if broken.width_over_128 {
        return Some(Kind::WidthOver128);
    }
    if broken.bad_select {
        return Some(Kind::BadSelect);
    }
    if broken.memory_use {
        return Some(Kind::MemoryUse);
    }
    None
}
