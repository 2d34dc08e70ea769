//! Trees as text for the tests: brackets round each operator with its operands, `#` for a number.

use crate::sheet::Sheet;
use v_syntax::tree::{
    BinaryLink, BinaryOperator, Choice, Expression, PrefixOperator, Select, Selects, TestLink,
    TestOperator,
};

fn prefix(operator: PrefixOperator) -> &'static str {
    match operator {
        PrefixOperator::Plus => "+(",
        PrefixOperator::Minus => "-(",
        PrefixOperator::Complement => "~(",
        PrefixOperator::IsZero => "!(",
        PrefixOperator::AllOnes => "&(",
        PrefixOperator::NotAllOnes => "~&(",
        PrefixOperator::AnyOne => "|(",
        PrefixOperator::NoOne => "~|(",
        PrefixOperator::OddOnes => "^(",
        PrefixOperator::EvenOnes => "~^(",
    }
}

fn shift(operator: BinaryOperator) -> &'static str {
    match operator {
        BinaryOperator::ShiftLeft => "<<",
        BinaryOperator::ShiftRight => ">>",
        BinaryOperator::ArithmeticShiftRight => ">>>",
        _ => "",
    }
}

fn bitwise(operator: BinaryOperator) -> &'static str {
    match operator {
        BinaryOperator::And => "&",
        BinaryOperator::Xor => "^",
        BinaryOperator::Xnor => "~^",
        BinaryOperator::Or => "|",
        _ => shift(operator),
    }
}

fn binary(operator: BinaryOperator) -> &'static str {
    match operator {
        BinaryOperator::Power => "**",
        BinaryOperator::Multiply => "*",
        BinaryOperator::Divide => "/",
        BinaryOperator::Modulo => "%",
        BinaryOperator::Add => "+",
        BinaryOperator::Subtract => "-",
        _ => bitwise(operator),
    }
}

fn test(operator: TestOperator) -> &'static str {
    match operator {
        TestOperator::Less => "<",
        TestOperator::LessOrEqual => "<=",
        TestOperator::Greater => ">",
        TestOperator::GreaterOrEqual => ">=",
        TestOperator::Equal => "==",
        TestOperator::NotEqual => "!=",
        TestOperator::Both => "&&",
        TestOperator::Either => "||",
    }
}

fn prefixes(operators: &[PrefixOperator], out: &mut Sheet) {
    for operator in operators {
        out.add(prefix(*operator));
    }
}

/// What stands before the parts of an expression.
fn begin(expression: &Expression<'_>, out: &mut Sheet) {
    match expression {
        Expression::Number(_) => out.add("#"),
        Expression::Name(name, _) => out.add(name),
        Expression::Concatenation(_) | Expression::Replication(_, _) => out.add("{"),
        Expression::AsSigned(_) => out.add("$signed("),
        Expression::AsUnsigned(_) => out.add("$unsigned("),
        Expression::Prefix(operators, _) => prefixes(operators, out),
        Expression::Binary(_, list) => out.add_times("(", list.len()),
        Expression::Test(_, list) => out.add_times("(", list.len()),
        Expression::Conditional(_, _) => {}
    }
}

/// What stands behind the parts of an expression.
fn end(expression: &Expression<'_>, out: &mut Sheet) {
    match expression {
        Expression::Concatenation(_) => out.add("}"),
        Expression::Replication(_, _) => out.add("}}"),
        Expression::AsSigned(_) | Expression::AsUnsigned(_) => out.add(")"),
        Expression::Prefix(operators, _) => out.add_times(")", operators.len()),
        Expression::Conditional(list, _) => out.add_times(")", list.len()),
        _ => {}
    }
}

#[cycle(showing)]
fn parts(parts: &Vec<Expression<'_>>, out: &mut Sheet) {
    for part in parts {
        show(part, out);
        out.add(";");
    }
}

#[cycle(showing)]
fn links(links: &Vec<BinaryLink<'_>>, out: &mut Sheet) {
    for link in links {
        out.add(binary(link.operator));
        show(&link.operand, out);
        out.add(")");
    }
}

#[cycle(showing)]
fn tests(links: &Vec<TestLink<'_>>, out: &mut Sheet) {
    for link in links {
        out.add(test(link.operator));
        show(&link.operand, out);
        out.add(")");
    }
}

#[cycle(showing)]
fn choices(choices: &Vec<Choice<'_>>, out: &mut Sheet) {
    for choice in choices {
        out.add("(");
        show(&choice.condition, out);
        out.add("?");
        show(&choice.value, out);
        out.add(":");
    }
}

/// What stands between the two parts of a select.
fn between(select: &Select<'_>) -> &'static str {
    match select {
        Select::PartUp(_, _) => "+:",
        Select::PartDown(_, _) => "-:",
        _ => ":",
    }
}

#[cycle(showing)]
fn select(select: &Select<'_>, out: &mut Sheet) {
    out.add("[");
    match select {
        Select::Index(index) => show(index, out),
        Select::Part(first, second)
        | Select::PartUp(first, second)
        | Select::PartDown(first, second) => {
            show(first, out);
            out.add(between(select));
            show(second, out);
        }
    }
    out.add("]");
}

#[cycle(showing)]
fn selects(selects: &Selects<'_>, out: &mut Sheet) {
    match selects {
        Selects::Whole => {}
        Selects::One(first) => select(first, out),
        Selects::Two(first, second) => {
            select(first, out);
            select(second, out);
        }
    }
}

/// The expression as text, behind what stands there.
#[cycle(showing)]
pub fn show(expression: &Expression<'_>, out: &mut Sheet) {
    begin(expression, out);
    match expression {
        Expression::Number(_) => {}
        Expression::Name(_, chosen) => selects(chosen, out),
        Expression::Concatenation(list) => parts(list, out),
        Expression::Replication(count, list) => {
            show(count, out);
            out.add("{");
            parts(list, out);
        }
        Expression::AsSigned(inside) | Expression::AsUnsigned(inside) => show(inside, out),
        Expression::Prefix(_, operand) => show(operand, out),
        Expression::Binary(first, list) => {
            show(first, out);
            links(list, out);
        }
        Expression::Test(first, list) => {
            show(first, out);
            tests(list, out);
        }
        Expression::Conditional(list, last) => {
            choices(list, out);
            show(last, out);
        }
    }
    end(expression, out);
}
