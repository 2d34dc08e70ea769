//! The rules that declarations of parameters break.
ghost use Rattle.std.specs.Prelude.{◌≡◌, Some, map, is_none};
ghost use Rattle.verilog_designs.specs.Known.{as_bound};
ghost use Rattle.verilog_designs.specs.Expressions as designs;
ghost use Rattle.verilog_rules.specs.Expression as rules;
ghost use Rattle.v_value.specs.Scope.{scope_at};
ghost use Rattle.v_syntax.specs.Tree.{tree_of};
ghost use Rattle.v_syntax.specs.Source.{optional_range_of, parameter_of, item_of};
ghost use Rattle.v_size.specs.Rule.{position_of, number_at};
ghost use Rattle.v_instances.specs.Outputs.{none};
ghost use Rattle.v_instances.specs.Parameters.{bound_at, width_between, of_width, is_wide, ranged, range_at, value_place, value_at, values_from, of_range, declaration_at, declarations_from, parameter_item_at, parameter_items_from};

use v_size::{
    Broken, Names, Position, also, constant_if, constant_in, judged_in, nothing, width_if,
};
use v_syntax::module::{Item, ParameterDeclaration, ParameterValue, Range};
use v_syntax::tree::Expression;
use v_value::select::Integer;
use v_value::sign::sign_of;

/// A bound of a range: the rules that it breaks, and its value, where it has one from 0 to 65,535.
#[derive(Clone, Copy, PartialEq, Eq, Debug)]
pub(crate) struct Bound {
    pub(crate) broken: Broken,
    pub(crate) value: Option<u16>,
}

/// How many bits the range of a declaration has.
#[derive(Clone, Copy, PartialEq, Eq, Debug)]
pub(crate) enum RangeWidth {
    /// None is declared.
    Absent,
    /// A bound has no value.
    Unknown,
    /// So many.
    Known(u32),
}

/// The range of a declaration: the rules that it breaks, and how many bits it has.
#[derive(Clone, Copy, PartialEq, Eq, Debug)]
pub(crate) struct DeclaredRange {
    pub(crate) broken: Broken,
    pub(crate) width: RangeWidth,
}

/// The bound that a number is, from 0 to 65,535.
fn bound_from(number: Option<Integer>) -> Option<u16>
    ensures { result ≡ as_bound (number_at number) }
{
    match number {
        Some(number) => {
            if number.negative || number.magnitude > 65_535 {
                None
            } else {
                Some(number.magnitude as u16)
            }
        }
        None => None,
    }
}

/// Whether the number of a bound, where it has one, is outside 0 to 65,535.
fn is_outside(number: Option<Integer>) -> bool
    ensures { result ≡ designs.is_outside (number_at number) }
{
    match number {
        Some(number) => number.negative || number.magnitude > 65_535,
        None => false,
    }
}

/// A bound of a range.
fn judged_bound(expression: &Expression<'_>, names: Names<'_, '_>) -> Bound
    ensures { result ≡ bound_at (scope_at names.entry.scope.now) (tree_of expression.now) }
{
    let constant = constant_in(expression, names);
    Bound {
        broken: also(constant_if(is_outside(constant.number)), constant.broken),
        value: bound_from(constant.number),
    }
}

/// How many bits stand from one bound to the other, both among them.
fn width_between(left: Option<u16>, right: Option<u16>) -> Option<u32>
    ensures { result ≡ width_between left right }
{
    match left {
        Some(left) => match right {
            Some(right) => Some(u32::from(left.abs_diff(right)) + 1),
            None => None,
        },
        None => None,
    }
}

/// The width of a declared range.
fn of_width(width: Option<u32>) -> RangeWidth
    ensures { result ≡ of_width width }
{
    match width {
        Some(width) => RangeWidth::Known(width),
        None => RangeWidth::Unknown,
    }
}

/// A range of two bounds.
fn ranged(left: Bound, right: Bound) -> DeclaredRange
    ensures { result ≡ ranged left right }
{
    DeclaredRange {
        broken: also(left.broken, right.broken),
        width: of_width(width_between(left.value, right.value)),
    }
}

/// The range of a declaration, if there is one.
fn judged_range(range: &Option<Box<Range<'_>>>, names: Names<'_, '_>) -> DeclaredRange
    ensures { result ≡ range_at (scope_at names.entry.scope.now) (optional_range_of range.now) }
{
    match range {
        Some(range) => ranged(
            judged_bound(&range.left, names),
            judged_bound(&range.right, names),
        ),
        None => DeclaredRange {
            broken: nothing(),
            width: RangeWidth::Absent,
        },
    }
}

/// Whether a range has more than 128 bits.
fn is_wide(width: RangeWidth) -> bool
    ensures { result ≡ is_wide width }
{
    match width {
        RangeWidth::Absent => false,
        RangeWidth::Unknown => false,
        RangeWidth::Known(width) => width > 128,
    }
}

/// The place of a value of this width and sign: a constant in the context of the range that is declared, if one is.
fn value_place(width: RangeWidth, own: Option<u32>, signed: bool) -> Position
    ensures { position_of result ≡ value_place width own signed }
{
    match width {
        RangeWidth::Absent => Position::Constant(own, signed),
        RangeWidth::Unknown => Position::Constant(None, signed),
        RangeWidth::Known(width) => match own {
            Some(own) => Position::Constant(Some(width.max(own)), signed),
            None => Position::Constant(None, signed),
        },
    }
}

/// The rules that the value of a parameter breaks.
fn broken_value(expression: &Expression<'_>, names: Names<'_, '_>, width: RangeWidth) -> Broken
    ensures { result ≡ value_at (scope_at names.entry.scope.now) width (tree_of expression.now) }
{
    let own = judged_in(expression, names, Position::Anywhere);
    let signed = sign_of(expression, names.scope);
    let judged = judged_in(expression, names, value_place(width, own.1, signed));
    judged.0
}

/// The rules that the values of a declaration break.
fn broken_values(values: &[ParameterValue<'_>], names: Names<'_, '_>, width: RangeWidth) -> Broken
    ensures { result ≡ values_from (scope_at names.entry.scope.now) width none (map (λ v. (v.name.now, tree_of v.value)) values.now) }
{
    let mut all = nothing();
    for value in values {
        all = also(all, broken_value(&value.value, names, width));
    }
    all
}

/// The rules that a declaration breaks.
fn broken_declaration(declaration: &ParameterDeclaration<'_>, names: Names<'_, '_>) -> Broken
    ensures { result ≡ declaration_at (scope_at names.entry.scope.now) (parameter_of declaration.now) }
{
    let range = judged_range(&declaration.range, names);
    also(
        range.broken,
        also(
            width_if(is_wide(range.width)),
            broken_values(&declaration.values, names, range.width),
        ),
    )
}

/// The rules that declarations break.
pub(crate) fn broken_declarations(
    declarations: &[ParameterDeclaration<'_>],
    names: Names<'_, '_>,
) -> Broken
    ensures { result ≡ declarations_from (scope_at names.entry.scope.now) none (map parameter_of declarations.now) }
{
    let mut all = nothing();
    for declaration in declarations {
        all = also(all, broken_declaration(declaration, names));
    }
    all
}

/// The rules that an item breaks as a declaration of parameters. Of other items nothing is said.
fn broken_item(item: &Item<'_>, names: Names<'_, '_>) -> Broken
    ensures { result ≡ parameter_item_at (scope_at names.entry.scope.now) (item_of item.now) }
{
    match item {
        Item::Parameter(declaration) => broken_declaration(declaration, names),
        Item::Port(_) => nothing(),
        Item::Wires(_, _, _) => nothing(),
        Item::Variables(_, _, _) => nothing(),
        Item::Assign(_) => nothing(),
        Item::Always(_, _) => nothing(),
        Item::Instances(_, _, _) => nothing(),
    }
}

/// The rules that the declarations of parameters among items break.
pub(crate) fn broken_by_parameters(items: &[Item<'_>], names: Names<'_, '_>) -> Broken
    ensures { result ≡ parameter_items_from (scope_at names.entry.scope.now) none (map item_of items.now) }
{
    let mut all = nothing();
    for item in items {
        all = also(all, broken_item(item, names));
    }
    all
}
