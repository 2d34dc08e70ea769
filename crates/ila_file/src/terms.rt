//! Terms of a model file.

ghost use Rattle.std.specs.Prelude.{◌≡◌, Some, IfOk, option_map, option_and_then};
ghost use Rattle.serde_json.specs.Data.{array};
ghost use Rattle.serde_json.specs.Find.{as_str};
ghost use Rattle.serde_json.specs.View.{view, items_view};
ghost use Rattle.model_files.specs.Shape.{term_in, unsigned_in, constant_in, unary_of, binary_of, with_const, with_unary, with_binary, with_widening, with_extract, with_three, of_one, of_two, of_three};
ghost use Rattle.model_files.specs.Written.{ite, store};
ghost use Rattle.ila_file.specs.Reading.{IsReading};
ghost use Rattle.ila_file.specs.View.{term_view, boxed_view, unary_view, binary_view, widening_view};

use crate::NoMemory;
use crate::scalars::number_in;
use crate::stop::Stop;
use crate::written::{BinaryOperator, UnaryOperator, Widening, WrittenTerm};
use serde_json::Value;
use std::alloc::Global;

/// The term that a value is.
pub(crate) fn read_term<'v>(alloc: Global, value: &'v Value) -> Result<WrittenTerm<'v>, Stop>
    ensures { IsReading term_view result (term_in (view value.now)) }
{
    let term = term_in(alloc, value)?;
    let term = term.ok_or(Stop::Refused)?;
    Ok(term)
}

/// A term: true, false, a name, or a list of an operator and its operands.
#[cycle(term)]
fn term_in<'v>(alloc: Global, value: &'v Value) -> Result<Option<WrittenTerm<'v>>, NoMemory>
    ensures { IfOk result (λ o. option_map term_view o ≡ term_in (view value.now)) }
{
    match value {
        Value::Bool(truth) => Ok(Some(WrittenTerm::Truth(*truth))),
        Value::String(name) => Ok(Some(WrittenTerm::Name(name.as_str()))),
        Value::Array(items) => operation_in(alloc, items),
        Value::Null | Value::Number(_) | Value::Object(_) => Ok(None),
    }
}

#[cycle(term)]
fn operation_in<'v>(
    alloc: Global,
    items: &'v Vec<Value>,
) -> Result<Option<WrittenTerm<'v>>, NoMemory>
    ensures { IfOk result (λ o. option_map term_view o ≡ term_in (array (items_view items.now.items))) }
{
    match items.as_slice() {
        [operator, a] => {
            let x = operand_in(alloc, a)?;
            Ok(of_one(operator.as_str(), x))
        }
        [operator, a, b] => {
            let x = operand_in(alloc, a)?;
            let y = operand_in(alloc, b)?;
            Ok(of_two(operator.as_str(), a, b, x, y))
        }
        [operator, a, b, c] => {
            let x = operand_in(alloc, a)?;
            let y = operand_in(alloc, b)?;
            let z = operand_in(alloc, c)?;
            Ok(of_three(operator.as_str(), a, b, x, y, z))
        }
        _ => Ok(None),
    }
}

/// A term that stands in another one.
#[cycle(term)]
fn operand_in<'v>(alloc: Global, value: &'v Value) -> Result<Option<Box<WrittenTerm<'v>>>, NoMemory>
    ensures { IfOk result (λ o. option_map boxed_view o ≡ term_in (view value.now)) }
{
    let term = term_in(alloc, value)?;
    let operand = boxed(alloc, term)?;
    Ok(operand)
}

/// The term in a box, if there is one.
fn boxed<'v>(
    alloc: Global,
    term: Option<WrittenTerm<'v>>,
) -> Result<Option<Box<WrittenTerm<'v>>>, NoMemory>
    ensures { IfOk result (λ o. option_map boxed_view o ≡ option_map term_view term.entry) }
{
    match term {
        Some(term) => {
            let term = Box::new(alloc, term)?;
            Ok(Some(term))
        }
        None => Ok(None),
    }
}

/// `["not", x]`, `["neg", x]`
fn of_one<'v>(operator: Option<&str>, x: Option<Box<WrittenTerm<'v>>>) -> Option<WrittenTerm<'v>>
    ensures { option_map term_view result
        ≡ option_and_then (λ op. of_one op (option_map boxed_view x.entry)) (option_map (λ s. s.now) operator.entry) }
{
    match (operator, x) {
        (Some(operator), Some(x)) => with_unary(unary_of(operator), x),
        _ => None,
    }
}

fn with_unary<'v>(
    operator: Option<UnaryOperator>,
    x: Box<WrittenTerm<'v>>,
) -> Option<WrittenTerm<'v>>
    ensures { option_map term_view result ≡ with_unary (option_map unary_view operator) (option_map boxed_view (Some x.entry)) }
{
    match operator {
        Some(operator) => Some(WrittenTerm::Unary(operator, x)),
        None => None,
    }
}

/// `["const", w, v]`, `["zext", n, x]`, `["sext", n, x]`, `["add", x, y]` and so on
fn of_two<'v>(
    operator: Option<&str>,
    a: &Value,
    b: &Value,
    x: Option<Box<WrittenTerm<'v>>>,
    y: Option<Box<WrittenTerm<'v>>>,
) -> Option<WrittenTerm<'v>>
    ensures { option_map term_view result
        ≡ option_and_then (λ op. of_two op (view a.now) (view b.now) (option_map boxed_view x.entry) (option_map boxed_view y.entry)) (option_map (λ s. s.now) operator.entry) }
{
    match operator {
        Some(operator) => named_two(operator, a, b, x, y),
        None => None,
    }
}

fn named_two<'v>(
    operator: &str,
    a: &Value,
    b: &Value,
    x: Option<Box<WrittenTerm<'v>>>,
    y: Option<Box<WrittenTerm<'v>>>,
) -> Option<WrittenTerm<'v>>
    ensures { option_map term_view result
        ≡ of_two operator.now (view a.now) (view b.now) (option_map boxed_view x.entry) (option_map boxed_view y.entry) }
{
    if operator == "const" {
        return with_const(a.as_u64(), number_in(b));
    }
    if operator == "zext" {
        return with_widening(Widening::Zext, a.as_u64(), y);
    }
    if operator == "sext" {
        return with_widening(Widening::Sext, a.as_u64(), y);
    }
    with_binary(binary_of(operator), x, y)
}

fn with_const<'v>(width: Option<u64>, number: Option<u128>) -> Option<WrittenTerm<'v>>
    ensures { option_map term_view result ≡ with_const width number }
{
    match (width, number) {
        (Some(width), Some(number)) => Some(WrittenTerm::Const(width, number)),
        _ => None,
    }
}

fn with_widening<'v>(
    widening: Widening,
    width: Option<u64>,
    x: Option<Box<WrittenTerm<'v>>>,
) -> Option<WrittenTerm<'v>>
    ensures { option_map term_view result ≡ with_widening (widening_view widening) width (option_map boxed_view x.entry) }
{
    match (width, x) {
        (Some(width), Some(x)) => Some(WrittenTerm::Widen(widening, width, x)),
        _ => None,
    }
}

fn with_binary<'v>(
    operator: Option<BinaryOperator>,
    x: Option<Box<WrittenTerm<'v>>>,
    y: Option<Box<WrittenTerm<'v>>>,
) -> Option<WrittenTerm<'v>>
    ensures { option_map term_view result ≡ with_binary (option_map binary_view operator) (option_map boxed_view x.entry) (option_map boxed_view y.entry) }
{
    match (operator, x, y) {
        (Some(operator), Some(x), Some(y)) => Some(WrittenTerm::Binary(operator, x, y)),
        _ => None,
    }
}

/// `["extract", h, l, x]`, `["ite", c, x, y]`, `["store", m, i, x]`
fn of_three<'v>(
    operator: Option<&str>,
    a: &Value,
    b: &Value,
    x: Option<Box<WrittenTerm<'v>>>,
    y: Option<Box<WrittenTerm<'v>>>,
    z: Option<Box<WrittenTerm<'v>>>,
) -> Option<WrittenTerm<'v>>
    ensures { option_map term_view result
        ≡ option_and_then (λ op. of_three op (view a.now) (view b.now) (option_map boxed_view x.entry) (option_map boxed_view y.entry) (option_map boxed_view z.entry)) (option_map (λ s. s.now) operator.entry) }
{
    match operator {
        Some("extract") => with_extract(a.as_u64(), b.as_u64(), z),
        Some("ite") => with_ite(x, y, z),
        Some("store") => with_store(x, y, z),
        _ => None,
    }
}

fn with_extract<'v>(
    high: Option<u64>,
    low: Option<u64>,
    x: Option<Box<WrittenTerm<'v>>>,
) -> Option<WrittenTerm<'v>>
    ensures { option_map term_view result ≡ with_extract high low (option_map boxed_view x.entry) }
{
    match (high, low, x) {
        (Some(high), Some(low), Some(x)) => Some(WrittenTerm::Extract(high, low, x)),
        _ => None,
    }
}

fn with_ite<'v>(
    x: Option<Box<WrittenTerm<'v>>>,
    y: Option<Box<WrittenTerm<'v>>>,
    z: Option<Box<WrittenTerm<'v>>>,
) -> Option<WrittenTerm<'v>>
    ensures { option_map term_view result ≡ with_three ite (option_map boxed_view x.entry) (option_map boxed_view y.entry) (option_map boxed_view z.entry) }
{
    match (x, y, z) {
        (Some(x), Some(y), Some(z)) => Some(WrittenTerm::Ite(x, y, z)),
        _ => None,
    }
}

fn with_store<'v>(
    x: Option<Box<WrittenTerm<'v>>>,
    y: Option<Box<WrittenTerm<'v>>>,
    z: Option<Box<WrittenTerm<'v>>>,
) -> Option<WrittenTerm<'v>>
    ensures { option_map term_view result ≡ with_three store (option_map boxed_view x.entry) (option_map boxed_view y.entry) (option_map boxed_view z.entry) }
{
    match (x, y, z) {
        (Some(x), Some(y), Some(z)) => Some(WrittenTerm::Store(x, y, z)),
        _ => None,
    }
}

fn unary_of(operator: &str) -> Option<UnaryOperator>
    ensures { option_map unary_view result ≡ unary_of operator.now }
{
    match operator {
        "not" => Some(UnaryOperator::Not),
        "neg" => Some(UnaryOperator::Neg),
        _ => None,
    }
}

fn binary_of(operator: &str) -> Option<BinaryOperator>
    ensures { option_map binary_view result ≡ binary_of operator.now }
{
    match operator {
        "and" => Some(BinaryOperator::And),
        "or" => Some(BinaryOperator::Or),
        "xor" => Some(BinaryOperator::Xor),
        "add" => Some(BinaryOperator::Add),
        "sub" => Some(BinaryOperator::Sub),
        "mul" => Some(BinaryOperator::Mul),
        "shl" => Some(BinaryOperator::Shl),
        "lshr" => Some(BinaryOperator::Lshr),
        "ashr" => Some(BinaryOperator::Ashr),
        "eq" => Some(BinaryOperator::Eq),
        "ult" => Some(BinaryOperator::Ult),
        "ule" => Some(BinaryOperator::Ule),
        "slt" => Some(BinaryOperator::Slt),
        "sle" => Some(BinaryOperator::Sle),
        "concat" => Some(BinaryOperator::Concat),
        "load" => Some(BinaryOperator::Load),
        _ => None,
    }
}
