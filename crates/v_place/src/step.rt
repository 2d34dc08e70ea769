//! One token more by the table.

ghost use Rattle.std.specs.Prelude.{◌≡◌, map, option_map, cond, Some, None, IfOk};
ghost use Rattle.v_token.specs.View.{token_of};
ghost use Rattle.v_place.specs.Table.{rules, leads, by_rule, led_by, behind_token, expected_after};
ghost use Rattle.v_place.specs.View.{symbol_of, symbols_of, rule_of, after_of, expected_of};

use crate::grammar::{is_optional, leads_with, rules_of};
use crate::matching::is_of;
use crate::stack::{enter_after, leave, top};
use crate::symbols::{After, Rule, Symbol};
use std::alloc::AllocError;
use v_token::token::Token;

/// What is expected after the token by the first rule for it.
fn by_rule(rules: &[Rule], token: Token<'_>) -> Option<&'static [Symbol]>
    ensures { option_map (λ ss. symbols_of ss.now) result ≡ by_rule (map rule_of rules.now) (token_of token.entry) }
{
    for rule in rules {
        if is_of(rule.0, token) {
            return Some(rule.1);
        }
    }
    None
}

/// What is expected after the token by a rule of the symbol.
fn after_own(symbol: Symbol, token: Token<'_>) -> Option<After>
    ensures { option_map after_of result ≡ by_rule (rules (symbol_of symbol)) (token_of token.entry) }
{
    match by_rule(rules_of(symbol), token) {
        Some(after) => Some((after, &[])),
        None => None,
    }
}

/// What is expected after the token by a rule of the symbol that this one may begin with.
fn after_lead(symbol: Symbol, token: Token<'_>) -> Option<After>
    ensures { option_map after_of result ≡ led_by (leads (symbol_of symbol)) (token_of token.entry) }
{
    match leads_with(symbol) {
        Some((first, more)) => match by_rule(rules_of(first), token) {
            Some(after) => Some((after, more)),
            None => None,
        },
        None => None,
    }
}

/// What is expected after a token at which the symbol begins.
#[tactic(auto, unfolding(crate::specs::Table::behind_token))]
fn after_token(symbol: Symbol, token: Token<'_>) -> Option<After>
    ensures { option_map after_of result ≡ behind_token (symbol_of symbol) (token_of token.entry) }
{
    match after_lead(symbol, token) {
        Some(after) => Some(after),
        None => after_own(symbol, token),
    }
}

/// Expects what comes after the token, where the token is expected.
pub fn take(expected: &mut Vec<Symbol>, token: Token<'_>) -> Result<bool, AllocError>
    ensures { IfOk result (λ is_expected. expected_after (expected_of expected.old.items) (token_of token.entry)
        ≡ cond is_expected (Some (expected_of expected.new.items)) None) }
{
    while let Some(symbol) = top(expected) {
        leave(expected);
        if let Some(after) = after_token(symbol, token) {
            enter_after(expected, after)?;
            return Ok(true);
        }
        if !is_optional(symbol) {
            return Ok(false);
        }
    }
    Ok(false)
}
