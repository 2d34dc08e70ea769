//! What registers take in reset.

ghost use Rattle.std.specs.Prelude.{◌≡◌, ◌++◌, map, option_map, IfOk};
ghost use Rattle.model_meaning.specs.Model.{states_of};
ghost use Rattle.verilog_meaning.specs.Settled.{whole_name};
ghost use Rattle.term_expressions.specs.Expressions.{word_at};
ghost use Rattle.wb_terms.specs.Sort.{as_sort};
ghost use Rattle.wb_terms.specs.Environment.{as_value};
ghost use Rattle.v_syntax.specs.Tree.{statement_of};
ghost use Rattle.ila_model.specs.Model.{model_of};
ghost use Rattle.emitted_designs.specs.Names.{reset_name};
ghost use Rattle.emitted_modules.specs.Rtl as rtl;
ghost use Rattle.emitted_trees.specs.Items.{stored};

use crate::NoMemory;
use crate::expressions::{whole, word_at};
use crate::statements::{first_value, stores, takes, with_statement};
use emitted_names::is_memory;
use ila_model::IlaModel;
use std::alloc::Global;
use v_syntax::tree::Statement;
use wb_terms::{Sort, Value};

/// Statements with what a truth value or a word takes in reset behind them.
fn with_first_take<'n>(
    alloc: Global,
    statements: Vec<Statement<'n>>,
    name: &'n str,
    sort: Sort,
    initial: &Option<Value>,
) -> Result<Vec<Statement<'n>>, NoMemory>
    ensures { IfOk result (λ v. map statement_of v.items ≡ map statement_of statements.entry.items ++ map rtl.takes (rtl.first_take name.now (as_sort sort) (option_map as_value initial.now))) }
{
    if is_memory(sort) {
        return Ok(statements);
    }
    let take = takes(alloc, name, first_value(name, sort, initial))?;
    let all = with_statement(statements, take)?;
    Ok(all)
}

/// Statements with what truth values and words take in reset behind them.
fn first_takes<'n>(alloc: Global, model: &'n IlaModel) -> Result<Vec<Statement<'n>>, NoMemory>
    ensures { IfOk result (λ v. map statement_of v.items ≡ map rtl.takes (rtl.first_takes (states_of (model_of model.now).top))) }
{
    let mut all = Vec::new(alloc);
    for place in 0..model.state_count() {
        let name = model.state_name(place);
        let sort = model.state_sort(place);
        all = with_first_take(alloc, all, name, sort, model.initial_value(place))?;
    }
    Ok(all)
}

/// `n[wb_rst] <= n[wb_rst];`
fn kept_word<'n>(alloc: Global, name: &'n str) -> Result<Statement<'n>, NoMemory>
    ensures { IfOk result (λ x. statement_of x ≡ stored name.now (whole_name reset_name) (word_at name.now (whole_name reset_name))) }
{
    let value = word_at(alloc, name, whole("wb_rst"))?;
    let made = stores(alloc, name, whole("wb_rst"), value)?;
    Ok(made)
}

/// Statements with one that keeps a word of a memory behind them.
fn with_kept_word<'n>(
    alloc: Global,
    statements: Vec<Statement<'n>>,
    name: &'n str,
    sort: Sort,
) -> Result<Vec<Statement<'n>>, NoMemory>
    ensures { IfOk result (λ v. map statement_of v.items ≡ map statement_of statements.entry.items ++ map rtl.writes (rtl.kept_word name.now (as_sort sort))) }
{
    if !is_memory(sort) {
        return Ok(statements);
    }
    let kept = kept_word(alloc, name)?;
    let all = with_statement(statements, kept)?;
    Ok(all)
}

/// What the registers take in reset. Of a memory a word is kept.
pub(crate) fn reset_statements<'n>(
    alloc: Global,
    model: &'n IlaModel,
) -> Result<Vec<Statement<'n>>, NoMemory>
    ensures { IfOk result (λ v. map statement_of v.items ≡ map rtl.takes (rtl.first_takes (states_of (model_of model.now).top)) ++ map rtl.writes (rtl.kept_words (states_of (model_of model.now).top))) }
{
    let mut all = first_takes(alloc, model)?;
    for place in 0..model.state_count() {
        let name = model.state_name(place);
        let sort = model.state_sort(place);
        all = with_kept_word(alloc, all, name, sort)?;
    }
    Ok(all)
}
