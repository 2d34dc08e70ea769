//! Operators by their marks.

ghost use Rattle.std.specs.Prelude.{◌≡◌, ◌≤◌, ◌-◌, option_map, ℕ, Some, IfSome, IfOk, IfErr};
ghost use Rattle.verilog_text.specs.Spelling.{prefix_of, operator_of};
ghost use Rattle.v_syntax.specs.Tree.{prefixed};
ghost use Rattle.v_token.specs.View.{mark_of, token_of, tokens_of};
ghost use Rattle.v_expr.specs.Reading.{Reader, prefix_from, prefix_at, alone_at, prefixed_at, joins_from};
ghost use Rattle.v_expr.specs.declared.operator.JointOperator.TheVariants.{Binary, Test};
ghost use Rattle.v_expr.specs.declared.stop.ExpressionStop.TheVariants.{NoMemory};
ghost use Rattle.v_expr.specs.View.{joint_of, joins_found, after_prefixes, IsFitting, IsJoining};

use crate::reader::from_here;
use crate::stop::ExpressionStop;
use std::alloc::Global;
use v_syntax::tree::{BinaryOperator, PrefixOperator, TestOperator};
use v_token::token::{Mark, Token, TokenKind};

/// An operator between two operands.
#[derive(Clone, Copy, PartialEq, Eq, Debug)]
pub enum JointOperator {
    Binary(BinaryOperator),
    Test(TestOperator),
}

/// An operator between two operands, and its tier: how many levels bind tighter, 0 for `**` and 10 for `||`.
#[derive(Clone, Copy, PartialEq, Eq, Debug)]
pub struct Joint {
    pub tier: u8,
    pub operator: JointOperator,
}

fn prefix_operator(mark: Mark) -> Option<PrefixOperator>
    ensures { option_map (λ o. prefixed o) result ≡ prefix_of (mark_of mark) }
{
    match mark {
        Mark::Plus => Some(PrefixOperator::Plus),
        Mark::Minus => Some(PrefixOperator::Minus),
        Mark::Tilde => Some(PrefixOperator::Complement),
        Mark::Exclamation => Some(PrefixOperator::IsZero),
        Mark::Ampersand => Some(PrefixOperator::AllOnes),
        Mark::TildeAmpersand => Some(PrefixOperator::NotAllOnes),
        Mark::Bar => Some(PrefixOperator::AnyOne),
        Mark::TildeBar => Some(PrefixOperator::NoOne),
        Mark::Caret => Some(PrefixOperator::OddOnes),
        Mark::TildeCaret => Some(PrefixOperator::EvenOnes),
        Mark::CaretTilde => Some(PrefixOperator::EvenOnes),
        _ => None,
    }
}

/// The operator that stands before an operand.
pub fn prefix_of(token: Token<'_>) -> Option<PrefixOperator>
    ensures { option_map (λ o. prefixed o) result ≡ prefix_from (token_of token.entry) }
{
    match token.kind {
        TokenKind::Mark(mark) => prefix_operator(mark),
        TokenKind::Word => None,
        TokenKind::System => None,
        TokenKind::Decimal => None,
        TokenKind::Based => None,
    }
}

fn binary(level: u8, operator: BinaryOperator) -> Option<Joint>
    requires { level ≤ 11 }
    ensures { result ≡ Some (record { tier = 11 - level; operator = Binary operator }) }
{
    Some(Joint {
        tier: 11 - level,
        operator: JointOperator::Binary(operator),
    })
}

fn test(level: u8, operator: TestOperator) -> Option<Joint>
    requires { level ≤ 11 }
    ensures { result ≡ Some (record { tier = 11 - level; operator = Test operator }) }
{
    Some(Joint {
        tier: 11 - level,
        operator: JointOperator::Test(operator),
    })
}

fn joint_of_mark(mark: Mark) -> Option<Joint>
    ensures meaning { option_map joint_of result ≡ operator_of (mark_of mark) }
    ensures tiers { IfSome result (λ j. j.tier ≤ 10) }
{
    match mark {
        Mark::DoubleBar => test(1, TestOperator::Either),
        Mark::DoubleAmpersand => test(2, TestOperator::Both),
        Mark::Bar => binary(3, BinaryOperator::Or),
        Mark::Caret => binary(4, BinaryOperator::Xor),
        Mark::CaretTilde => binary(4, BinaryOperator::Xnor),
        Mark::TildeCaret => binary(4, BinaryOperator::Xnor),
        Mark::Ampersand => binary(5, BinaryOperator::And),
        Mark::DoubleEquals => test(6, TestOperator::Equal),
        Mark::TripleEquals => test(6, TestOperator::Equal),
        Mark::ExclamationEquals => test(6, TestOperator::NotEqual),
        Mark::ExclamationDoubleEquals => test(6, TestOperator::NotEqual),
        Mark::Less => test(7, TestOperator::Less),
        Mark::LessEquals => test(7, TestOperator::LessOrEqual),
        Mark::Greater => test(7, TestOperator::Greater),
        Mark::GreaterEquals => test(7, TestOperator::GreaterOrEqual),
        Mark::DoubleLess => binary(8, BinaryOperator::ShiftLeft),
        Mark::TripleLess => binary(8, BinaryOperator::ShiftLeft),
        Mark::DoubleGreater => binary(8, BinaryOperator::ShiftRight),
        Mark::TripleGreater => binary(8, BinaryOperator::ArithmeticShiftRight),
        Mark::Plus => binary(9, BinaryOperator::Add),
        Mark::Minus => binary(9, BinaryOperator::Subtract),
        Mark::Star => binary(10, BinaryOperator::Multiply),
        Mark::Slash => binary(10, BinaryOperator::Divide),
        Mark::Percent => binary(10, BinaryOperator::Modulo),
        Mark::DoubleStar => binary(11, BinaryOperator::Power),
        _ => None,
    }
}

fn joint_in(token: Token<'_>) -> Option<Joint>
    ensures meaning { (k : ℕ) → joins_from k (token_of token.entry) ≡ joins_found k result }
    ensures tiers { IfSome result (λ j. j.tier ≤ 10) }
{
    match token.kind {
        TokenKind::Mark(mark) => joint_of_mark(mark),
        TokenKind::Word => None,
        TokenKind::System => None,
        TokenKind::Decimal => None,
        TokenKind::Based => None,
    }
}

fn fitting(token: Token<'_>, tiers: u8) -> Option<Joint>
    ensures { IsFitting tiers (token_of token.entry) result }
{
    let joint = joint_in(token)?;
    if joint.tier < tiers {
        Some(joint)
    } else {
        None
    }
}

/// The operator in front, of so many tiers from the tightest, and what stands behind it.
#[tactic(auto, unfolding(crate::specs::Reading::joins_at))]
pub fn behind_joint<'s, 't>(tokens: &'t [Token<'s>], tiers: u8) -> Option<(Joint, &'t [Token<'s>])>
    ensures { IsJoining tiers (tokens_of tokens.now) result }
{
    match tokens {
        [] => None,
        [token, rest @ ..] => match fitting(*token, tiers) {
            Some(joint) => Some((joint, rest)),
            None => None,
        },
    }
}

/// The operator that stands before an operand, and what stands behind it.
fn behind_prefix<'s, 't>(tokens: &'t [Token<'s>]) -> Option<(PrefixOperator, &'t [Token<'s>])>
    ensures { option_map (λ x. (λ e. prefixed x.0 e, tokens_of x.1.now)) result ≡ prefix_at (tokens_of tokens.now) }
{
    match tokens {
        [] => None,
        [token, rest @ ..] => match prefix_of(*token) {
            Some(operator) => Some((operator, rest)),
            None => None,
        },
    }
}

/// The operators that stand before an operand, and what stands behind them.
pub fn prefixes<'s, 't>(
    alloc: Global,
    tokens: &'t [Token<'s>],
) -> Result<(Vec<PrefixOperator>, &'t [Token<'s>]), ExpressionStop>
    ensures read { IfOk result (λ x. (whole_at : Reader) → prefixed_at whole_at (tokens_of tokens.now) ≡ after_prefixes x.0.items (alone_at whole_at (tokens_of x.1.now))) }
    ensures memory { IfErr result (λ e. e ≡ NoMemory) }
{
    let mut operators = Vec::new(alloc);
    let mut rest = from_here(tokens)?;
    loop {
        let Some((operator, after)) = behind_prefix(rest) else {
            return Ok((operators, rest));
        };
        operators.push(operator)?;
        rest = after;
    }
}
