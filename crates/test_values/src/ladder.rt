//! A statement that is one long ladder of `else if`, run down to its last arm.

ghost use Rattle.std.specs.Prelude.{◌<◌, ◌^◌, IfOk};
ghost use Rattle.test_values.specs.Small.{IsSmall, IsSmallStatement};

use std::alloc::{AllocError, Global};
use v_statement::statement::run;
use v_syntax::tree::{Arm, Expression, Number, Selects, Statement, Target};
use v_value::scope::{Scope, Value, Values};

/// An unsigned number of 32 bits.
fn number<'s>(value: u128) -> Expression<'s>
    requires { value < 2 ^ 32 }
    ensures { IsSmall result }
{
    Expression::Number(Number {
        width: 32,
        sized: true,
        signed: false,
        value,
        unknown: 0,
        wild: 0,
        has_unknown: false,
        has_wild: false,
    })
}

/// `name = 1;`
fn assignment<'s>(alloc: Global, name: &'s str) -> Result<Statement<'s>, AllocError>
    ensures { IfOk result (λ x. IsSmallStatement x) }
{
    let target = Box::new(alloc, Target::Place(name, Selects::Whole))?;
    Ok(Statement::Blocking(target, number(1)))
}

/// `if (0) ; else if (0) ; .. else if (1) q = 1;` with so many arms before the last one.
fn ladder(alloc: Global, before: usize) -> Result<Box<Statement<'static>>, AllocError>
    ensures { IfOk result (λ x. IsSmallStatement x.value) }
{
    let mut arms = Vec::new(alloc);
    for _ in 0..before {
        arms.push(Arm {
            condition: number(0),
            statement: Statement::Empty,
        })?;
    }
    let last = assignment(alloc, "q")?;
    arms.push(Arm {
        condition: number(1),
        statement: last,
    })?;
    let whole = Box::new(alloc, Statement::If(arms, None))?;
    Ok(whole)
}

/// The value that was assigned last, with how many values there are, and how many updates wait.
fn told(alloc: Global, values: &Values<'_>, waiting: usize) -> Result<String, AllocError> {
    let Some(entry) = values.entries.last() else {
        return String::from_str(alloc, "nothing was assigned");
    };
    let Value::Number(number) = entry.value else {
        return String::from_str(alloc, "no number was assigned");
    };
    let (count, name) = (values.entries.len(), entry.name);
    format!(in alloc; "{count} value, {name} {number}, {waiting} updates")
}

/// What values and updates there are after a statement that is run where there are no names.
fn run_told(statement: &Statement<'_>, alloc: Global) -> Result<String, AllocError>
    requires { IsSmallStatement statement.now }
{
    let scope = Scope::new(alloc);
    let mut values = Values {
        entries: Vec::new(alloc),
    };
    let mut updates = Vec::new(alloc);
    run(alloc, statement, &scope, &mut values, &mut updates)?;
    told(alloc, &values, updates.len())
}

/// What values and updates there are after a ladder of so many arms before the last one.
pub fn ladder_run(alloc: Global, before: &str) -> Result<String, AllocError> {
    let Ok(before) = before.parse::<usize>() else {
        return String::from_str(alloc, "is no row");
    };
    match ladder(alloc, before) {
        Ok(statement) => run_told(&statement, alloc),
        Err(stop) => Err(stop),
    }
}
