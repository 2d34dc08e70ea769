//! Runs of statements whose targets are part selects.

ghost use Rattle.std.specs.Prelude.{◌≡◌, true, false, ◌<◌, ◌≤◌, IfOk};
ghost use Rattle.verilog_trees.specs.Syntax.{number};
ghost use Rattle.verilog_meaning.specs.Expression.{Scope as PureScope, Object as PureObject, no_values, select_bits};
ghost use Rattle.v_value.specs.Scope.{scope_at};
ghost use Rattle.v_syntax.specs.Tree.{tree_of, select_of, statement_of};
ghost use Rattle.v_value.specs.Narrow.{HasNarrowObjects};
ghost use Rattle.v_statement.specs.Statements.{IsNarrowSelect, IsNarrowStatement};

use crate::objects::number;
use std::alloc::{AllocError, Global};
use std::str::SplitWhitespace;
use v_statement::place::{Bits, Cell, Place};
use v_statement::register::after_edge;
use v_statement::statement::run;
use v_statement::write::write;
use v_syntax::tree::{Expression, Number, Select, Selects, Statement, Target};
use v_value::scope::{Declaration, Entry, Object, Scope, Value, Values};
use v_value::select::Integer;

/// A form of part select.
#[derive(Clone, Copy)]
enum Form {
    Between,
    Upward,
    Downward,
}

/// A number of 8 bits.
fn byte<'s>(value: u8) -> Expression<'s>
    ensures { tree_of result ≡ number (record { width = 8; sized = true; signed = false; value = value; unknown = 0; wild = 0; has_unknown = false; has_wild = false }) }
{
    Expression::Number(Number {
        width: 8,
        sized: true,
        signed: false,
        value: u128::from(value),
        unknown: 0,
        wild: 0,
        has_unknown: false,
        has_wild: false,
    })
}

/// `[first:second]`, `[first +: second]` or `[first -: second]`.
fn part<'s>(alloc: Global, form: Form, first: u8, second: u8) -> Result<Select<'s>, AllocError>
    requires first_small { first < 128 }
    requires second_small { second < 128 }
    ensures { IfOk result (λ x. (s : PureScope) → IsNarrowSelect s (select_of x)
        × ((o : PureObject) → (select_bits s no_values o (select_of x)).count ≤ 128)) }
{
    let first = Box::new(alloc, byte(first))?;
    let second = Box::new(alloc, byte(second))?;
    match form {
        Form::Between => Ok(Select::Part(first, second)),
        Form::Upward => Ok(Select::PartUp(first, second)),
        Form::Downward => Ok(Select::PartDown(first, second)),
    }
}

/// `begin q = 8'h55; q[..] = number; end`
fn assignment(
    alloc: Global,
    form: Form,
    first: u8,
    second: u8,
    number: u8,
) -> Result<Box<Statement<'static>>, AllocError>
    requires first_small { first < 128 }
    requires second_small { second < 128 }
    ensures { IfOk result (λ x. (s : PureScope) → HasNarrowObjects s → IsNarrowStatement s (statement_of x.value)) }
{
    let selects = Selects::One(part(alloc, form, first, second)?);
    let mut statements = Vec::new(alloc);
    let whole = Box::new(alloc, Target::Place("q", Selects::Whole))?;
    statements.push(Statement::Blocking(whole, byte(0x55)))?;
    let part = Box::new(alloc, Target::Place("q", selects))?;
    statements.push(Statement::Blocking(part, byte(number)))?;
    let whole = Box::new(alloc, Statement::Block(None, statements))?;
    Ok(whole)
}

/// `reg [left:right] q;`
fn declared(alloc: Global, left: u32, right: u32) -> Result<Scope<'static>, AllocError>
    requires left_small { left < 128 }
    requires right_small { right < 128 }
    ensures { IfOk result (λ s. HasNarrowObjects (scope_at s)) }
{
    let object = Object {
        is_declared: true,
        signed: false,
        has_range: true,
        left,
        right,
        addresses: None,
        constant: None,
    };
    let mut declarations = Vec::new(alloc);
    declarations.push(Declaration { name: "q", object })?;
    let scope = Scope::of(alloc, declarations)?;
    Ok(scope)
}

/// The number under the last name.
fn last_number(values: &Values<'_>) -> Option<u128> {
    match values.entries.last() {
        Some(
            Entry {
                value: Value::Number(number),
                ..
            },
        ) => Some(*number),
        _ => None,
    }
}

/// The values after a statement that is run where `q` has these bounds.
fn run_where(
    statement: &Statement<'static>,
    alloc: Global,
    bounds: (u32, u32),
) -> Result<Values<'static>, AllocError>
    requires left_small { bounds.0 < 128 }
    requires right_small { bounds.1 < 128 }
    requires narrow { (s : PureScope) → HasNarrowObjects s → IsNarrowStatement s (statement_of statement.now) }
{
    let scope = declared(alloc, bounds.0, bounds.1)?;
    let mut values = Values {
        entries: Vec::new(alloc),
    };
    let mut updates = Vec::new(alloc);
    run(alloc, statement, &scope, &mut values, &mut updates)?;
    Ok(values)
}

/// The values after the assignment to a `q` with these bounds.
fn assigned(
    alloc: Global,
    bounds: (u32, u32),
    form: Form,
    first: u8,
    second: u8,
    number: u8,
) -> Result<Values<'static>, AllocError>
    requires left_small { bounds.0 < 128 }
    requires right_small { bounds.1 < 128 }
    requires first_small { first < 128 }
    requires second_small { second < 128 }
{
    match assignment(alloc, form, first, second, number) {
        Ok(statement) => run_where(&statement, alloc, bounds),
        Err(stop) => Err(stop),
    }
}

/// The form that stands between the bounds or the base and the width.
fn form_of(word: &str) -> Option<Form> {
    match word {
        ":" => Some(Form::Between),
        "+:" => Some(Form::Upward),
        "-:" => Some(Form::Downward),
        _ => None,
    }
}

/// The left and the right bound of the register, the select, and the number that is assigned.
#[derive(Clone, Copy)]
struct Row {
    left: u32,
    right: u32,
    first: u8,
    form: Form,
    second: u8,
    number: u8,
}

/// The next word as a number of 8 bits.
fn small(words: &mut SplitWhitespace<'_>) -> Option<u8> {
    words.next()?.parse::<u8>().ok()
}

/// `LEFT RIGHT FIRST FORM SECOND NUMBER`.
fn row_of(text: &str) -> Option<Row> {
    let mut words = text.split_whitespace();
    Some(Row {
        left: number(&mut words)?,
        right: number(&mut words)?,
        first: small(&mut words)?,
        form: form_of(words.next()?)?,
        second: small(&mut words)?,
        number: small(&mut words)?,
    })
}

fn number_shown(alloc: Global, values: &Values<'_>) -> Result<String, AllocError> {
    let Some(number) = last_number(values) else {
        return String::from_str(alloc, "no number was assigned");
    };
    format!(in alloc; "{number}")
}

/// What a register is after `begin q = 8'h55; q[..] = NUMBER; end`.
pub fn part_assigned(alloc: Global, text: &str) -> Result<String, AllocError> {
    let Some(row) = row_of(text) else {
        return String::from_str(alloc, "is no row");
    };
    if row.left >= 128 || row.right >= 128 || row.first >= 128 || row.second >= 128 {
        return String::from_str(alloc, "is no row");
    }
    let values = assigned(
        alloc,
        (row.left, row.right),
        row.form,
        row.first,
        row.second,
        row.number,
    )?;
    number_shown(alloc, &values)
}

/// What a register `[7:0]` is after 11 was written to four bits from bit 9 downward.
pub fn written(alloc: Global) -> Result<String, AllocError> {
    let scope = declared(alloc, 7, 0)?;
    let mut values = Values {
        entries: Vec::new(alloc),
    };
    let place = Place {
        name: "q",
        cell: Cell::Variable,
        bits: Bits {
            from: Integer {
                negative: false,
                magnitude: 9,
            },
            downward: true,
            count: 4,
        },
    };
    write(alloc, &scope, &mut values, &[place], 11)?;
    number_shown(alloc, &values)
}

/// How many values there are after an edge of a module without items.
pub fn edge(alloc: Global) -> Result<String, AllocError> {
    let scope = declared(alloc, 7, 0)?;
    let mut values = Values {
        entries: Vec::new(alloc),
    };
    after_edge(alloc, &[], &scope, &mut values)?;
    format!(in alloc; "{} values", values.entries.len())
}
