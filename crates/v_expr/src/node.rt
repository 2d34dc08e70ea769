//! Nodes of trees.

ghost use Rattle.std.specs.Prelude.{◌≡◌, ◌∷◌, [], IfOk, IfErr};
ghost use Rattle.verilog_trees.specs.Syntax as pure;
ghost use Rattle.v_syntax.specs.Tree.{tree_of, all_prefixed, expressions_of};
ghost use Rattle.v_syntax.specs.Chain.{linked, test_linked, chosen};
ghost use Rattle.v_expr.specs.View.{joins_of};
ghost use Rattle.v_expr.specs.Flat.{IsFlat, AreFlat, HasFlatChoices};
ghost use Rattle.v_expr.specs.declared.stop.ExpressionStop.TheVariants.{NoMemory};

use crate::operator::JointOperator;
use crate::stop::ExpressionStop;
use std::alloc::Global;
use v_syntax::tree::{BinaryLink, Choice, Expression, PrefixOperator, TestLink};

fn with_link<'s>(
    alloc: Global,
    left: Expression<'s>,
    link: BinaryLink<'s>,
) -> Result<Expression<'s>, ExpressionStop>
    ensures made { IfOk result (λ e. tree_of e ≡ linked (link.entry ∷ []) (tree_of left.entry)) }
    ensures flat { IfOk result (λ e. IsFlat left.entry → IsFlat link.entry.operand → IsFlat e) }
    ensures memory { IfErr result (λ e. e ≡ NoMemory) }
{
    match left {
        Expression::Binary(first, links) => {
            let mut links = links;
            links.push(link)?;
            Ok(Expression::Binary(first, links))
        }
        first => {
            let first = Box::new(alloc, first)?;
            let mut links = Vec::with_capacity(alloc, 1)?;
            links.push(link)?;
            Ok(Expression::Binary(first, links))
        }
    }
}

fn with_test<'s>(
    alloc: Global,
    left: Expression<'s>,
    link: TestLink<'s>,
) -> Result<Expression<'s>, ExpressionStop>
    ensures made { IfOk result (λ e. tree_of e ≡ test_linked (link.entry ∷ []) (tree_of left.entry)) }
    ensures flat { IfOk result (λ e. IsFlat left.entry → IsFlat link.entry.operand → IsFlat e) }
    ensures memory { IfErr result (λ e. e ≡ NoMemory) }
{
    match left {
        Expression::Test(first, links) => {
            let mut links = links;
            links.push(link)?;
            Ok(Expression::Test(first, links))
        }
        first => {
            let first = Box::new(alloc, first)?;
            let mut links = Vec::with_capacity(alloc, 1)?;
            links.push(link)?;
            Ok(Expression::Test(first, links))
        }
    }
}

/// The left operand with an operator and the right operand behind it.
pub fn with_joint<'s>(
    alloc: Global,
    left: Expression<'s>,
    operator: JointOperator,
    right: Expression<'s>,
) -> Result<Expression<'s>, ExpressionStop>
    ensures made { IfOk result (λ e. tree_of e ≡ joins_of operator (tree_of left.entry) (tree_of right.entry)) }
    ensures flat { IfOk result (λ e. IsFlat left.entry → IsFlat right.entry → IsFlat e) }
    ensures memory { IfErr result (λ e. e ≡ NoMemory) }
{
    match operator {
        JointOperator::Binary(operator) => {
            let link = BinaryLink {
                operator,
                operand: right,
            };
            with_link(alloc, left, link)
        }
        JointOperator::Test(operator) => {
            let link = TestLink {
                operator,
                operand: right,
            };
            with_test(alloc, left, link)
        }
    }
}

/// Parts in braces, of which this is the first.
pub fn first_part<'s>(
    alloc: Global,
    first: Expression<'s>,
) -> Result<Vec<Expression<'s>>, ExpressionStop>
    ensures made { IfOk result (λ v. v.items ≡ first.entry ∷ []) }
    ensures flat { IfOk result (λ v. IsFlat first.entry → AreFlat v.items) }
    ensures memory { IfErr result (λ e. e ≡ NoMemory) }
{
    let mut parts = Vec::new(alloc);
    parts.push(first)?;
    Ok(parts)
}

/// So many copies of parts.
pub fn replication<'s>(count: Box<Expression<'s>>, parts: Vec<Expression<'s>>) -> Expression<'s>
    ensures made { tree_of result ≡ pure.replication (tree_of count.entry.value) (expressions_of parts.entry.items) }
    ensures flat { IsFlat count.entry.value → AreFlat parts.entry.items → IsFlat result }
{
    Expression::Replication(count, parts)
}

/// Parts one behind another.
pub fn concatenation<'s>(parts: Vec<Expression<'s>>) -> Expression<'s>
    ensures made { tree_of result ≡ pure.concatenation (expressions_of parts.entry.items) }
    ensures flat { AreFlat parts.entry.items → IsFlat result }
{
    Expression::Concatenation(parts)
}

/// The last value with the choices before it. Those that it begins with (it may have stood in brackets) come into the same node.
pub fn with_choices<'s>(
    alloc: Global,
    choices: Vec<Choice<'s>>,
    last: Expression<'s>,
) -> Result<Expression<'s>, ExpressionStop>
    ensures made { IfOk result (λ e. tree_of e ≡ chosen choices.entry.items (tree_of last.entry)) }
    ensures flat { IfOk result (λ e. HasFlatChoices choices.entry.items → IsFlat last.entry → IsFlat e) }
    ensures memory { IfErr result (λ e. e ≡ NoMemory) }
{
    if choices.is_empty() {
        return Ok(last);
    }
    match last {
        Expression::Conditional(inner, end) => {
            let mut longer = choices;
            let mut inner = inner;
            longer.append(&mut inner)?;
            Ok(Expression::Conditional(longer, end))
        }
        end => {
            let end = Box::new(alloc, end)?;
            Ok(Expression::Conditional(choices, end))
        }
    }
}

/// The operand with the operators before it. Those that it begins with (it may have stood in brackets) come into the same node.
pub fn with_prefixes<'s>(
    alloc: Global,
    operators: Vec<PrefixOperator>,
    operand: Expression<'s>,
) -> Result<Expression<'s>, ExpressionStop>
    ensures made { IfOk result (λ e. tree_of e ≡ all_prefixed operators.items (tree_of operand.entry)) }
    ensures flat { IfOk result (λ e. IsFlat operand.entry → IsFlat e) }
    ensures memory { IfErr result (λ e. e ≡ NoMemory) }
{
    if operators.is_empty() {
        return Ok(operand);
    }
    match operand {
        Expression::Prefix(inner, last) => {
            let mut all = operators;
            let mut inner = inner;
            all.append(&mut inner)?;
            Ok(Expression::Prefix(all, last))
        }
        last => {
            let last = Box::new(alloc, last)?;
            Ok(Expression::Prefix(operators, last))
        }
    }
}
