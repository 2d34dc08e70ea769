//! Modules.

ghost use Rattle.std.specs.Prelude.{◌≡◌, map, option_map, codes, IfOk};
ghost use Rattle.v_token.specs.View.{tokens_of};
ghost use Rattle.v_syntax.specs.Source.{parameter_of, port_of, ports_of, item_of, module_of};
ghost use Rattle.v_expr.specs.View.{Gives};
ghost use Rattle.v_expr.specs.Flat.{Each};
ghost use Rattle.v_parse.specs.Flat.{IsFlatItem, IsFlatModule, IsFlatParameter, IsFlatPort, IsFlatPorts};
ghost use Rattle.v_body.specs.Words.{after_word};
ghost use Rattle.v_parse.specs.Lists.{at_end};
ghost use Rattle.v_parse.specs.Reading.{header_parameter_at, parameter_list_at, some_parameters_at, header_parameters_at, port_list_at, declared_ports_at, listed_ports_at, some_ports_at, ports_at, items_at, module_at, modules_at};

use crate::declaration::{declared_parameter, direction, names, port};
use crate::front::{begun_with, keyword};
use crate::item::item;
use std::alloc::Global;
use v_body::word::{behind_word, name};
use v_expr::ExpressionStop;
use v_expr::reader::{behind_mark, from_here, mark};
use v_syntax::module::{Item, Module, ParameterDeclaration, PortDeclaration, Ports};
use v_token::token::{Mark, Token};

/// Parameters of a header.
#[tactic(auto, unfolding(crate::specs::Reading::header_parameter_at))]
fn header_parameter<'s, 't>(
    alloc: Global,
    tokens: &'t [Token<'s>],
) -> Result<(ParameterDeclaration<'s>, &'t [Token<'s>]), ExpressionStop>
    ensures read { Gives (λ x. (parameter_of x.0, tokens_of x.1.now)) result (header_parameter_at (tokens_of tokens.now)) }
    ensures flat { IfOk result (λ x. IsFlatParameter x.0) }
{
    let rest = keyword(tokens, "parameter")?;
    let (parameter, rest) = declared_parameter(alloc, false, rest)?;
    Ok((parameter, rest))
}

/// Parameters of a header with commas between them.
#[tactic(auto, unfolding(crate::specs::Reading::parameter_list_at))]
fn parameter_list<'s, 't>(
    alloc: Global,
    tokens: &'t [Token<'s>],
) -> Result<(Vec<ParameterDeclaration<'s>>, &'t [Token<'s>]), ExpressionStop>
    ensures read { Gives (λ x. (map parameter_of x.0.items, tokens_of x.1.now)) result (parameter_list_at (tokens_of tokens.now)) }
    ensures flat { IfOk result (λ x. Each IsFlatParameter x.0.items) }
{
    let (first, mut rest) = header_parameter(alloc, tokens)?;
    let mut parameters = begun_with(alloc, first)?;
    loop {
        match behind_mark(rest, Mark::Comma) {
            None => return Ok((parameters, rest)),
            Some(more) => {
                let (next, after) = header_parameter(alloc, more)?;
                parameters.push(next)?;
                rest = after;
            }
        }
    }
}

/// The parameters of a header, if `#` stands in front.
#[tactic(auto, unfolding(crate::specs::Reading::header_parameters_at, crate::specs::Reading::some_parameters_at))]
fn header_parameters<'s, 't>(
    alloc: Global,
    tokens: &'t [Token<'s>],
) -> Result<(Vec<ParameterDeclaration<'s>>, &'t [Token<'s>]), ExpressionStop>
    ensures read { Gives (λ x. (map parameter_of x.0.items, tokens_of x.1.now)) result (header_parameters_at (tokens_of tokens.now)) }
    ensures flat { IfOk result (λ x. Each IsFlatParameter x.0.items) }
{
    match behind_mark(tokens, Mark::Hash) {
        Some(rest) => {
            let rest = mark(rest, Mark::LeftParenthesis)?;
            let (parameters, rest) = parameter_list(alloc, rest)?;
            let rest = mark(rest, Mark::RightParenthesis)?;
            Ok((parameters, rest))
        }
        None => Ok((Vec::new(alloc), tokens)),
    }
}

/// Ports of a header with commas between them.
#[tactic(auto, unfolding(crate::specs::Reading::port_list_at))]
fn port_list<'s, 't>(
    alloc: Global,
    tokens: &'t [Token<'s>],
) -> Result<(Vec<PortDeclaration<'s>>, &'t [Token<'s>]), ExpressionStop>
    ensures read { Gives (λ x. (map port_of x.0.items, tokens_of x.1.now)) result (port_list_at (tokens_of tokens.now)) }
    ensures flat { IfOk result (λ x. Each IsFlatPort x.0.items) }
{
    let (first, mut rest) = port(alloc, tokens)?;
    let mut ports = begun_with(alloc, first)?;
    loop {
        match behind_mark(rest, Mark::Comma) {
            None => return Ok((ports, rest)),
            Some(more) => {
                let (next, after) = port(alloc, more)?;
                ports.push(next)?;
                rest = after;
            }
        }
    }
}

/// Ports that are declared, up to `)`, which is passed.
#[tactic(auto, unfolding(crate::specs::Reading::declared_ports_at))]
fn declared_ports<'s, 't>(
    alloc: Global,
    tokens: &'t [Token<'s>],
) -> Result<(Ports<'s>, &'t [Token<'s>]), ExpressionStop>
    ensures read { Gives (λ x. (ports_of x.0, tokens_of x.1.now)) result (declared_ports_at (tokens_of tokens.now)) }
    ensures flat { IfOk result (λ x. IsFlatPorts x.0) }
{
    let (ports, rest) = port_list(alloc, tokens)?;
    let rest = mark(rest, Mark::RightParenthesis)?;
    Ok((Ports::Declared(ports), rest))
}

/// Names of ports, up to `)`, which is passed.
#[tactic(auto, unfolding(crate::specs::Reading::listed_ports_at))]
fn listed_ports<'s, 't>(
    alloc: Global,
    tokens: &'t [Token<'s>],
) -> Result<(Ports<'s>, &'t [Token<'s>]), ExpressionStop>
    ensures read { Gives (λ x. (ports_of x.0, tokens_of x.1.now)) result (listed_ports_at (tokens_of tokens.now)) }
    ensures flat { IfOk result (λ x. IsFlatPorts x.0) }
{
    let (names, rest) = names(alloc, tokens)?;
    let rest = mark(rest, Mark::RightParenthesis)?;
    Ok((Ports::Listed(names), rest))
}

/// The ports behind `(`.
#[tactic(auto, unfolding(crate::specs::Reading::some_ports_at))]
fn some_ports<'s, 't>(
    alloc: Global,
    tokens: &'t [Token<'s>],
) -> Result<(Ports<'s>, &'t [Token<'s>]), ExpressionStop>
    ensures read { Gives (λ x. (ports_of x.0, tokens_of x.1.now)) result (some_ports_at (tokens_of tokens.now)) }
    ensures flat { IfOk result (λ x. IsFlatPorts x.0) }
{
    if let Some(rest) = behind_mark(tokens, Mark::RightParenthesis) {
        return Ok((Ports::Listed(Vec::new(alloc)), rest));
    }
    if direction(tokens).is_some() {
        let (ports, rest) = declared_ports(alloc, tokens)?;
        return Ok((ports, rest));
    }
    let (ports, rest) = listed_ports(alloc, tokens)?;
    Ok((ports, rest))
}

/// The ports of a header, if `(` stands in front.
#[tactic(auto, unfolding(crate::specs::Reading::ports_at))]
fn ports<'s, 't>(
    alloc: Global,
    tokens: &'t [Token<'s>],
) -> Result<(Ports<'s>, &'t [Token<'s>]), ExpressionStop>
    ensures read { Gives (λ x. (ports_of x.0, tokens_of x.1.now)) result (ports_at (tokens_of tokens.now)) }
    ensures flat { IfOk result (λ x. IsFlatPorts x.0) }
{
    match behind_mark(tokens, Mark::LeftParenthesis) {
        Some(rest) => {
            let (ports, rest) = some_ports(alloc, rest)?;
            Ok((ports, rest))
        }
        None => Ok((Ports::NoPorts, tokens)),
    }
}

fn behind_endmodule<'s, 't>(tokens: &'t [Token<'s>]) -> Option<&'t [Token<'s>]>
    ensures { option_map (λ r. tokens_of r.now) result ≡ after_word (codes "endmodule") (tokens_of tokens.now) }
{
    behind_word(tokens, "endmodule")
}

/// The items up to `endmodule`, which is passed.
#[tactic(auto, unfolding(crate::specs::Reading::items_at))]
fn items<'s, 't>(
    alloc: Global,
    tokens: &'t [Token<'s>],
) -> Result<(Vec<Item<'s>>, &'t [Token<'s>]), ExpressionStop>
    ensures read { Gives (λ x. (map item_of x.0.items, tokens_of x.1.now)) result (items_at (tokens_of tokens.now)) }
    ensures flat { IfOk result (λ x. Each IsFlatItem x.0.items) }
{
    let mut rest = from_here(tokens)?;
    let mut items = Vec::new(alloc);
    loop {
        match behind_endmodule(rest) {
            Some(after) => return Ok((items, after)),
            None => {
                let (next, after) = item(alloc, rest)?;
                items.push(next)?;
                rest = after;
            }
        }
    }
}

/// A module.
#[tactic(auto, unfolding(crate::specs::Reading::module_at))]
fn module<'s, 't>(
    alloc: Global,
    tokens: &'t [Token<'s>],
) -> Result<(Module<'s>, &'t [Token<'s>]), ExpressionStop>
    ensures read { Gives (λ x. (module_of x.0, tokens_of x.1.now)) result (module_at (tokens_of tokens.now)) }
    ensures flat { IfOk result (λ x. IsFlatModule x.0) }
{
    let rest = keyword(tokens, "module")?;
    let (name, rest) = name(rest)?;
    let (parameters, rest) = header_parameters(alloc, rest)?;
    let (ports, rest) = ports(alloc, rest)?;
    let rest = mark(rest, Mark::Semicolon)?;
    let (items, rest) = items(alloc, rest)?;
    Ok((
        Module {
            name,
            parameters,
            ports,
            items,
        },
        rest,
    ))
}

#[tactic(auto, unfolding(crate::specs::Lists::at_end))]
fn the_end<'s, 't>(tokens: &'t [Token<'s>]) -> Option<&'t [Token<'s>]>
    ensures { option_map (λ r. tokens_of r.now) result ≡ at_end (tokens_of tokens.now) }
{
    match tokens {
        [] => Some(tokens),
        [_, ..] => None,
    }
}

/// The modules up to the end of the tokens.
#[tactic(auto, unfolding(crate::specs::Reading::modules_at))]
pub fn modules<'s, 't>(
    alloc: Global,
    tokens: &'t [Token<'s>],
) -> Result<(Vec<Module<'s>>, &'t [Token<'s>]), ExpressionStop>
    ensures read { Gives (λ x. (map module_of x.0.items, tokens_of x.1.now)) result (modules_at (tokens_of tokens.now)) }
    ensures flat { IfOk result (λ x. Each IsFlatModule x.0.items) }
{
    let mut rest = from_here(tokens)?;
    let mut modules = Vec::new(alloc);
    loop {
        match the_end(rest) {
            Some(after) => return Ok((modules, after)),
            None => {
                let (next, after) = module(alloc, rest)?;
                modules.push(next)?;
                rest = after;
            }
        }
    }
}
