//! Operators: their marks, and how tightly they bind.
ghost use Rattle.std.specs.Prelude.{◌≡◌, suc};
ghost use Rattle.v_token.specs.View.{mark_of};
ghost use Rattle.v_print.specs.Links.{prefix_mark, link_mark, link_level, test_mark, test_level};

use v_syntax::tree::{BinaryOperator, PrefixOperator, TestOperator};
use v_token::token::Mark;

/// The mark of an operator before an operand.
pub(crate) fn prefix_mark(operator: PrefixOperator) -> Mark
    ensures { mark_of result ≡ prefix_mark operator }
{
    match operator {
        PrefixOperator::Plus => Mark::Plus,
        PrefixOperator::Minus => Mark::Minus,
        PrefixOperator::Complement => Mark::Tilde,
        PrefixOperator::IsZero => Mark::Exclamation,
        PrefixOperator::AllOnes => Mark::Ampersand,
        PrefixOperator::NotAllOnes => Mark::TildeAmpersand,
        PrefixOperator::AnyOne => Mark::Bar,
        PrefixOperator::NoOne => Mark::TildeBar,
        PrefixOperator::OddOnes => Mark::Caret,
        PrefixOperator::EvenOnes => Mark::TildeCaret,
    }
}

/// The mark of an operator between two operands.
pub(crate) fn link_mark(operator: BinaryOperator) -> Mark
    ensures { mark_of result ≡ link_mark operator }
{
    match operator {
        BinaryOperator::Power => Mark::DoubleStar,
        BinaryOperator::Multiply => Mark::Star,
        BinaryOperator::Divide => Mark::Slash,
        BinaryOperator::Modulo => Mark::Percent,
        BinaryOperator::Add => Mark::Plus,
        BinaryOperator::Subtract => Mark::Minus,
        BinaryOperator::ShiftLeft => Mark::DoubleLess,
        BinaryOperator::ShiftRight => Mark::DoubleGreater,
        BinaryOperator::ArithmeticShiftRight => Mark::TripleGreater,
        BinaryOperator::And => Mark::Ampersand,
        BinaryOperator::Xor => Mark::Caret,
        BinaryOperator::Xnor => Mark::TildeCaret,
        BinaryOperator::Or => Mark::Bar,
    }
}

/// How tightly it binds.
pub(crate) fn link_level(operator: BinaryOperator) -> u64
    ensures { result ≡ link_level operator }
{
    match operator {
        BinaryOperator::Power => 11,
        BinaryOperator::Multiply | BinaryOperator::Divide | BinaryOperator::Modulo => 10,
        BinaryOperator::Add | BinaryOperator::Subtract => 9,
        BinaryOperator::ShiftLeft
        | BinaryOperator::ShiftRight
        | BinaryOperator::ArithmeticShiftRight => 8,
        BinaryOperator::And => 5,
        BinaryOperator::Xor | BinaryOperator::Xnor => 4,
        BinaryOperator::Or => 3,
    }
}

/// The mark of a test between two operands.
pub(crate) fn test_mark(operator: TestOperator) -> Mark
    ensures { mark_of result ≡ test_mark operator }
{
    match operator {
        TestOperator::Less => Mark::Less,
        TestOperator::LessOrEqual => Mark::LessEquals,
        TestOperator::Greater => Mark::Greater,
        TestOperator::GreaterOrEqual => Mark::GreaterEquals,
        TestOperator::Equal => Mark::DoubleEquals,
        TestOperator::NotEqual => Mark::ExclamationEquals,
        TestOperator::Both => Mark::DoubleAmpersand,
        TestOperator::Either => Mark::DoubleBar,
    }
}

/// How tightly it binds.
pub(crate) fn test_level(operator: TestOperator) -> u64
    ensures { result ≡ test_level operator }
{
    match operator {
        TestOperator::Less
        | TestOperator::LessOrEqual
        | TestOperator::Greater
        | TestOperator::GreaterOrEqual => 7,
        TestOperator::Equal | TestOperator::NotEqual => 6,
        TestOperator::Both => 2,
        TestOperator::Either => 1,
    }
}
