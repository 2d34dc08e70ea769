//! What a `case` compares: its expression and the values of its items, all in one context (1364-2005, 9.5).

ghost use Rattle.std.specs.Prelude.{◌≡◌, ◌≤◌, ◌<◌, ◌==◌, ◌&&◌, ◌||◌, ◌%◌, ◌^◌, ℕ, Bool, max, cond, length, bit_or, None, option_map, IfOk, IfSome};
ghost use Rattle.wb_values.specs.Value.{truth, word, Valuation};
ghost use Rattle.verilog_trees.specs.Syntax as pure;
ghost use Rattle.verilog_meaning.specs.Expression.{Scope as PureScope, width_of, sign_of, value_of};
ghost use Rattle.verilog_meaning.specs.Statement.{wild_bits, matches, any_matches, greatest_width, all_signed, items_width, items_signed};
ghost use Rattle.verilog_designs.specs.Expressions.{judged_item};
ghost use Rattle.v_syntax.specs.Tree.{number_of, tree_of, expressions_of, case_kind_of};
ghost use Rattle.v_value.specs.Scope.{scope_at};
ghost use Rattle.v_value.specs.Narrow.{IsNarrow, AreNarrow, HasNarrowObjects};
ghost use Rattle.v_operators.specs.Meaning.{Grows, IsOfSort, HasTruth, Compares};
ghost use Rattle.v_lower.specs.Lowered.{Images, HasImages};
ghost use Rattle.v_lower.specs.Table.{images_at};
ghost use Rattle.v_lower.specs.Walking.{IsSound};
ghost use Rattle.v_write.specs.Guard.{IsGuard};
ghost use Rattle.v_write.specs.Sound.{AreSoundItems, item_list};
ghost use Rattle.v_write.specs.Matching.{plain_number, AreValuesNarrow, IsSelector, AreComparable, IsTestOf, HasAny};
ghost use Rattle.v_write.specs.Cases.{default_from};

use crate::NoMemory;
use crate::reading::lowered;
use v_lower::{NamedTerms, lower_number};
use v_operators::{constant, disjunction, either, is_equal, put};
use v_syntax::tree::{CaseItem, CaseKind, Expression, Number};
use v_value::scope::Scope;
use v_value::sign::sign_of;
use v_value::width::width_of;
use wb_bits::mask;
use wb_terms::{Node, TermId, Terms};

/// What a case compares with: the term of its expression, in the context of all its values.
#[derive(Clone, Copy)]
pub(crate) struct Selector {
    pub(crate) kind: CaseKind,
    pub(crate) id: TermId,
    pub(crate) width: u32,
    pub(crate) signed: bool,
}

/// The greatest width of the expressions, or this one where it is greater.
fn greatest_width(expressions: &[Expression<'_>], scope: &Scope<'_>, mut width: u32) -> u32
    requires { AreNarrow (scope_at scope.now) (expressions_of expressions.now) }
    ensures { result ≡ max width (greatest_width (scope_at scope.now) (expressions_of expressions.now)) }
{
    for expression in expressions {
        width = width.max(width_of(expression, scope));
    }
    width
}

/// Whether all the expressions are signed.
fn all_signed(expressions: &[Expression<'_>], scope: &Scope<'_>) -> bool
    ensures { result ≡ all_signed (scope_at scope.now) (expressions_of expressions.now) }
{
    for expression in expressions {
        if !sign_of(expression, scope) {
            return false;
        }
    }
    true
}

/// The greatest width of the items' values, or this one where it is greater.
fn items_width(items: &[CaseItem<'_>], scope: &Scope<'_>, mut width: u32) -> u32
    requires { AreValuesNarrow (scope_at scope.now) items.now }
    ensures { result ≡ max width (items_width (scope_at scope.now) (item_list items.now)) }
{
    for item in items {
        if let CaseItem::Values(values, _) = item {
            width = greatest_width(values, scope, width);
        }
    }
    width
}

/// Whether all the items' values are signed.
fn items_signed(items: &[CaseItem<'_>], scope: &Scope<'_>) -> bool
    ensures { result ≡ items_signed (scope_at scope.now) (item_list items.now) }
{
    for item in items {
        if let CaseItem::Values(values, _) = item
            && !all_signed(values, scope)
        {
            return false;
        }
    }
    true
}

/// How many bits the expression of a case and all its values are widened to.
fn case_width<'s>(expression: &Expression<'s>, items: &[CaseItem<'s>], scope: &Scope<'_>) -> u32
    requires narrow { IsNarrow (scope_at scope.now) (tree_of expression.now) }
    requires values_narrow { AreValuesNarrow (scope_at scope.now) items.now }
    ensures width { result ≡ max (width_of (scope_at scope.now) (tree_of expression.now)) (items_width (scope_at scope.now) (item_list items.now)) }
    ensures at_most_128 { result ≤ 128 }
{
    items_width(items, scope, width_of(expression, scope))
}

/// Whether they are widened with their sign.
fn case_signed<'s>(expression: &Expression<'s>, items: &[CaseItem<'s>], scope: &Scope<'_>) -> bool
    ensures { result ≡ (sign_of (scope_at scope.now) (tree_of expression.now) && items_signed (scope_at scope.now) (item_list items.now)) }
{
    sign_of(expression, scope) && items_signed(items, scope)
}

/// The term of the expression of a case, in the context of all its values.
pub(crate) fn lowered_selector<'s>(
    expression: &Expression<'s>,
    items: &[CaseItem<'s>],
    scope: &Scope<'_>,
    table: &NamedTerms<'_>,
    terms: &mut Terms,
    kind: CaseKind,
) -> Result<Selector, NoMemory>
    requires objects { HasNarrowObjects (scope_at scope.now) }
    requires known { HasImages (scope_at scope.now) (images_at table.now) terms.old }
    requires expression { IsSound (scope_at scope.now) (tree_of expression.now) }
    requires items { AreSoundItems (scope_at scope.now) (case_kind_of kind) (item_list items.now) }
    ensures grows { Grows terms.old terms.new }
    ensures selector { IfOk result (λ r. IsSelector (scope_at scope.now) (images_at table.now) terms.new (tree_of expression.now) (item_list items.now) r.width r.signed r.id.0) }
    ensures kind { IfOk result (λ r. r.kind ≡ kind) }
{
    let width = case_width(expression, items, scope);
    let signed = case_signed(expression, items, scope);
    let id = lowered(expression, scope, table, terms, width, signed)?;
    Ok(Selector {
        kind,
        id,
        width,
        signed,
    })
}

/// This number where no link stands behind it.
fn alone<T>(links: &[T], number: Option<Number>) -> Option<Number>
    ensures { option_map number_of result ≡ cond (length links.now == 0) (option_map number_of number) None }
{
    if links.is_empty() { number } else { None }
}

/// The number that an expression is, where it is one.
fn plain_number(expression: &Expression<'_>) -> Option<Number>
    ensures { option_map number_of result ≡ plain_number (tree_of expression.now) }
{
    match expression {
        Expression::Number(number) => Some(*number),
        Expression::Prefix(operators, operand) => alone(operators, plain_number(operand)),
        Expression::Binary(first, links) => alone(links, plain_number(first)),
        Expression::Test(first, links) => alone(links, plain_number(first)),
        Expression::Conditional(choices, last) => alone(choices, plain_number(last)),
        Expression::Name(_, _)
        | Expression::Concatenation(_)
        | Expression::Replication(_, _)
        | Expression::AsSigned(_)
        | Expression::AsUnsigned(_) => None,
    }
}

/// The lowest `width` bits of a number.
fn lowest(number: u128, width: u32) -> u128
    requires { width ≤ 128 }
    ensures { result ≡ number % 2 ^ width }
{
    number & mask(width)
}

/// Whether two numbers are equal but for some bits. (Such bits past their width are none of theirs.)
fn is_equal_but_for(
    terms: &mut Terms,
    left: TermId,
    right: TermId,
    width: u32,
    wild: u128,
) -> Result<TermId, NoMemory>
    requires left { IsOfSort terms.old left.0 (word width) }
    requires right { IsOfSort terms.old right.0 (word width) }
    ensures grows { Grows terms.old terms.new }
    ensures made { IfOk result (λ r. Compares terms.old terms.new left.0 right.0 width r.0 (λ a b. bit_or a wild == bit_or b wild)) }
{
    let within = lowest(wild, width);
    if within == 0 {
        let id = is_equal(terms, left, right, width)?;
        return Ok(id);
    }
    let bits = constant(terms, width, within)?;
    let first = disjunction(terms, left, bits, width)?;
    let second = disjunction(terms, right, bits, width)?;
    let id = is_equal(terms, first, second, width)?;
    Ok(id)
}

/// Whether a number among the values of an item matches: in a `casez` but for its z and `?` bits.
fn number_matches(terms: &mut Terms, selector: Selector, number: Number) -> Result<TermId, NoMemory>
    requires selector { IsOfSort terms.old selector.id.0 (word selector.width) }
    requires some_bits { 1 ≤ number.width }
    requires fits { number.value < 2 ^ number.width }
    requires within { number.width ≤ selector.width }
    ensures grows { Grows terms.old terms.new }
    ensures test { IfOk result (λ r. (s : PureScope) (images : Images) → HasImages s images terms.old → IsTestOf s images terms.old terms.new selector.id.0 selector.width r.0
        (λ v a. matches (case_kind_of selector.kind) number.wild a (value_of s v (pure.number (number_of number)) selector.width selector.signed))) }
{
    let id = lower_number(terms, number, selector.width, selector.signed)?;
    match selector.kind {
        CaseKind::Exact => {
            let said = is_equal(terms, selector.id, id, selector.width)?;
            Ok(said)
        }
        CaseKind::Wild => {
            let said = is_equal_but_for(terms, selector.id, id, selector.width, number.wild)?;
            Ok(said)
        }
    }
}

/// Whether one of the values of an item matches.
fn value_matches(
    value: &Expression<'_>,
    scope: &Scope<'_>,
    table: &NamedTerms<'_>,
    terms: &mut Terms,
    selector: Selector,
) -> Result<TermId, NoMemory>
    requires objects { HasNarrowObjects (scope_at scope.now) }
    requires known { HasImages (scope_at scope.now) (images_at table.now) terms.old }
    requires selector { IsOfSort terms.old selector.id.0 (word selector.width) }
    requires sound { IsSound (scope_at scope.now) (judged_item (case_kind_of selector.kind) (tree_of value.now)) }
    requires within { width_of (scope_at scope.now) (tree_of value.now) ≤ selector.width }
    ensures grows { Grows terms.old terms.new }
    ensures test { IfOk result (λ r. IsTestOf (scope_at scope.now) (images_at table.now) terms.old terms.new selector.id.0 selector.width r.0
        (λ v a. matches (case_kind_of selector.kind) (wild_bits (tree_of value.now)) a (value_of (scope_at scope.now) v (tree_of value.now) selector.width selector.signed))) }
{
    match plain_number(value) {
        Some(number) => {
            let said = number_matches(terms, selector, number)?;
            Ok(said)
        }
        None => {
            let id = lowered(value, scope, table, terms, selector.width, selector.signed)?;
            let said = is_equal(terms, selector.id, id, selector.width)?;
            Ok(said)
        }
    }
}

/// Whether one of some tests holds, or one more.
fn with_test(terms: &mut Terms, tests: Option<TermId>, said: TermId) -> Result<TermId, NoMemory>
    requires tests { IsGuard terms.old tests }
    requires said { IsOfSort terms.old said.0 truth }
    ensures grows { Grows terms.old terms.new }
    ensures of_sort { IfOk result (λ r. IsOfSort terms.new r.0 truth) }
    ensures value { IfOk result (λ r. (p : Valuation) (b c : Bool) → HasAny terms.old p tests b → HasTruth terms.old said.0 p c → HasTruth terms.new r.0 p (b || c)) }
{
    match tests {
        None => Ok(said),
        Some(before) => {
            let id = either(terms, before, said)?;
            Ok(id)
        }
    }
}

/// Whether one of some tests holds: no, where there are none.
fn any_of(terms: &mut Terms, tests: Option<TermId>) -> Result<TermId, NoMemory>
    requires { IsGuard terms.old tests }
    ensures grows { Grows terms.old terms.new }
    ensures of_sort { IfOk result (λ r. IsOfSort terms.new r.0 truth) }
    ensures value { IfOk result (λ r. (p : Valuation) (b : Bool) → HasAny terms.old p tests b → HasTruth terms.new r.0 p b) }
{
    match tests {
        None => {
            let id = put(terms, Node::Truth(false))?;
            Ok(id)
        }
        Some(id) => Ok(id),
    }
}

/// Whether an item matches: whether one of its values does.
pub(crate) fn item_matches(
    values: &[Expression<'_>],
    scope: &Scope<'_>,
    table: &NamedTerms<'_>,
    terms: &mut Terms,
    selector: Selector,
) -> Result<TermId, NoMemory>
    requires objects { HasNarrowObjects (scope_at scope.now) }
    requires known { HasImages (scope_at scope.now) (images_at table.now) terms.old }
    requires selector { IsOfSort terms.old selector.id.0 (word selector.width) }
    requires values { AreComparable (scope_at scope.now) (case_kind_of selector.kind) selector.width values.now }
    ensures grows { Grows terms.old terms.new }
    ensures test { IfOk result (λ r. IsTestOf (scope_at scope.now) (images_at table.now) terms.old terms.new selector.id.0 selector.width r.0
        (λ v a. any_matches (scope_at scope.now) v (case_kind_of selector.kind) selector.width selector.signed a (expressions_of values.now))) }
{
    let mut tests = None;
    for value in values {
        let said = value_matches(value, scope, table, terms, selector)?;
        let all = with_test(terms, tests, said)?;
        tests = Some(all);
    }
    let id = any_of(terms, tests)?;
    Ok(id)
}

/// The index of the default among the items of a case.
pub(crate) fn default_item(items: &[CaseItem<'_>]) -> Option<usize>
    ensures below { IfSome result (λ index. index < length items.now) }
    ensures value { result ≡ default_from 0 items.now None }
{
    let mut found = None;
    for (index, item) in items.iter().enumerate() {
        match item {
            CaseItem::Values(_, _) => {}
            CaseItem::Default(_) => found = Some(index),
        }
    }
    found
}
