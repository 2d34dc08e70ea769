//! Whole sources.

ghost use Rattle.std.specs.Prelude.{◌≡◌, ◌↔◌, Some, IfOk, IfErr};
ghost use Rattle.v_token.specs.View.{tokens_of};
ghost use Rattle.v_parse.specs.Reading.{source_at};
ghost use Rattle.v_parse.specs.View.{Parses, IsParsed};
ghost use Rattle.v_parse.specs.Place.{IsPlace};
ghost use Rattle.v_parse.specs.Flat.{IsFlatTree};

use crate::module::modules;
use crate::stop::ParseStop;
use std::alloc::Global;
use v_expr::ExpressionStop;
use v_place::left_at_first_wrong;
use v_syntax::module::Tree;
use v_token::token::Token;

/// The tree that all of the tokens are spelled by. They are refused at the first token with which no source goes on.
#[tactic(auto, unfolding(crate::specs::Reading::source_at))]
pub fn parse<'s>(alloc: Global, tokens: &[Token<'s>]) -> Result<Tree<'s>, ParseStop>
    ensures read { Parses result (source_at (tokens_of tokens.now)) }
    ensures place { IfErr result (λ e. IsPlace e (tokens_of tokens.now)) }
    ensures flat { IfOk result (λ t. IsFlatTree t) }
    ensures spelled { IsParsed result (tokens_of tokens.now) }
{
    match modules(alloc, tokens) {
        Ok((modules, _)) => Ok(Tree { modules }),
        Err(ExpressionStop::NoMemory) => Err(ParseStop::NoMemory),
        Err(ExpressionStop::Refused(_)) => match left_at_first_wrong(alloc, tokens) {
            Ok(left) => Err(ParseStop::Refused(left)),
            Err(_) => Err(ParseStop::NoMemory),
        },
    }
}
