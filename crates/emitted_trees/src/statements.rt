//! Statements.

ghost use Rattle.std.specs.Prelude.{◌≡◌, ◌++◌, ◌∷◌, [], map, option_map, IfOk};
ghost use Rattle.wb_values.specs.Value.{numeral_of};
ghost use Rattle.verilog_trees.specs.Syntax as pure;
ghost use Rattle.wb_terms.specs.Sort.{as_sort};
ghost use Rattle.wb_terms.specs.Environment.{as_value};
ghost use Rattle.v_syntax.specs.Tree.{tree_of, statement_of};
ghost use Rattle.emitted_modules.specs.Rtl as rtl;
ghost use Rattle.emitted_trees.specs.Items.{stored};

use crate::NoMemory;
use crate::expressions::{sized, whole};
use crate::lists::{one, with};
use crate::nodes::bit;
use std::alloc::Global;
use v_syntax::tree::{Arm, Expression, Select, Selects, Statement, Target};
use wb_terms::{Sort, Value};

/// `n <= e;`
pub(crate) fn takes<'n>(
    alloc: Global,
    name: &'n str,
    value: Expression<'n>,
) -> Result<Statement<'n>, NoMemory>
    ensures { IfOk result (λ x. statement_of x ≡ rtl.takes (name.now, tree_of value.entry)) }
{
    let target = Box::new(alloc, Target::Place(name, Selects::Whole))?;
    Ok(Statement::Nonblocking(target, value))
}

/// `n[i] <= e;`
pub(crate) fn stores<'n>(
    alloc: Global,
    name: &'n str,
    address: Expression<'n>,
    value: Expression<'n>,
) -> Result<Statement<'n>, NoMemory>
    ensures { IfOk result (λ x. statement_of x ≡ stored name.now (tree_of address.entry) (tree_of value.entry)) }
{
    let index = Box::new(alloc, address)?;
    let place = Target::Place(name, Selects::One(Select::Index(index)));
    let target = Box::new(alloc, place)?;
    Ok(Statement::Nonblocking(target, value))
}

/// Statements with one more behind them.
pub(crate) fn with_statement<'n>(
    statements: Vec<Statement<'n>>,
    statement: Statement<'n>,
) -> Result<Vec<Statement<'n>>, NoMemory>
    ensures { IfOk result (λ v. map statement_of v.items ≡ map statement_of statements.entry.items ++ statement_of statement.entry ∷ []) }
{
    let all = with(statements, statement)?;
    Ok(all)
}

/// `begin .. end`
pub(crate) fn in_block<'n>(statements: Vec<Statement<'n>>) -> Statement<'n>
    ensures { statement_of result ≡ rtl.in_block (map statement_of statements.entry.items) }
{
    Statement::Block(None, statements)
}

/// The bits of a net of a sort, or of a word of a memory.
fn bits_of_sort(sort: Sort) -> u32
    ensures { result ≡ rtl.bits_of_sort (as_sort sort) }
{
    match sort {
        Sort::Truth => 1,
        Sort::Word(width) => width,
        Sort::Memory(_, width) => width,
    }
}

/// A value as a number.
fn number_of(value: &Value) -> u128
    ensures { result ≡ numeral_of (as_value value.now) }
{
    match value {
        Value::Truth(truth) => bit(*truth),
        Value::Number(number) => *number,
        Value::Words(_) => 0,
    }
}

/// What a truth value or a word takes in reset: its initial value, or else what it has.
pub(crate) fn first_value<'n>(name: &'n str, sort: Sort, initial: &Option<Value>) -> Expression<'n>
    ensures { tree_of result ≡ rtl.first_value name.now (as_sort sort) (option_map as_value initial.now) }
{
    match initial {
        Some(value) => sized(bits_of_sort(sort), number_of(value)),
        None => whole(name),
    }
}

/// `if (c) x`
pub(crate) fn guarded<'n>(
    alloc: Global,
    condition: Expression<'n>,
    statement: Statement<'n>,
) -> Result<Statement<'n>, NoMemory>
    ensures { IfOk result (λ x. statement_of x ≡ pure.if_then (tree_of condition.entry) (statement_of statement.entry)) }
{
    let arm = Arm {
        condition,
        statement,
    };
    let arms = one(alloc, arm)?;
    Ok(Statement::If(arms, None))
}
