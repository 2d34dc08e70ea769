//! The expressions of a map in their order, each with the names in it and the width that it must have.

ghost use Rattle.std.specs.Prelude.{◌≡◌, ◌∷◌, [], IfOk, OnOk, option_map};
ghost use Rattle.std.specs.List.{AllZip};
ghost use Rattle.verilog_trees.specs.Syntax.{Expression as PureExpression};
ghost use Rattle.wb_terms.specs.Sort.{as_sort};
ghost use Rattle.ila_model.specs.Model.{model_of};
ghost use Rattle.v_syntax.specs.Tree.{tree_of};
ghost use Rattle.v_instances.specs.Texts.{texts};
ghost use Rattle.verilog_designs.specs.Names.{names_in};
ghost use Rattle.map_rules.specs.Mapped.{wanted_width};
ghost use Rattle.map_trees.specs.View.{tree_map_view};
ghost use Rattle.map_judged.specs.Asked.{asked_list, AreNamed};
ghost use Rattle.map_judged.specs.Whole.{asked_in};
ghost use Rattle.map_reading.specs.Listed.{AreTreesOf, IsCommitOf, IsConditionOf, IsInputOf, IsMore, IsStateOf, IsTreeOf, all_asked, commit_asked, condition_asked, input_asked, state_asked};

use ila_model::IlaModel;
use map_judged::MapExpression;
use map_sorts::ModelSorts;
use map_trees::{
    EntryTokens, InstructionTokens, InstructionTree, MapTokens, MappedTree, RefinementMap,
    StateTokens, TextTokens,
};
use std::alloc::{AllocError, Global};
use v_syntax::tree::Expression;
use wb_terms::Sort;

/// The number of bits of what a value of a sort is mapped to; a memory is mapped otherwise.
fn width_of(sort: Option<Sort>) -> Option<u32>
    ensures { result ≡ wanted_width (option_map as_sort sort) }
{
    match sort {
        Some(Sort::Truth) => Some(1),
        Some(Sort::Word(width)) => Some(width),
        Some(Sort::Memory(_, _)) | None => None,
    }
}

/// The names in the expression of these tokens.
fn names_of<'t>(alloc: Global, tokens: &'t TextTokens) -> Result<Vec<&'t str>, AllocError>
    ensures { IfOk result (λ v. (e : PureExpression) → IsTreeOf tokens.now e → texts v.items ≡ names_in e) }
{
    match tokens {
        TextTokens::Tokens(text) => {
            let names = text.names(alloc)?;
            Ok(names)
        }
        TextTokens::Refused(_) => Ok(Vec::new(alloc)),
    }
}

/// Adds an expression.
fn add<'e, 't>(
    alloc: Global,
    tree: &'e Expression<'t>,
    tokens: &'t TextTokens,
    width: Option<u32>,
    list: &mut Vec<MapExpression<'e, 't>>,
) -> Result<(), AllocError>
    requires { IsTreeOf tokens.now (tree_of tree.now) }
    ensures { OnOk result (IsMore list.old.items list.new.items (record { tree = tree_of tree.now; wanted = width } ∷ [])) }
{
    let names = names_of(alloc, tokens)?;
    list.push(MapExpression { tree, names, width })?;
    Ok(())
}

/// Adds conditions.
fn add_conditions<'e, 't>(
    alloc: Global,
    trees: &'e [Expression<'t>],
    tokens: &'t [TextTokens],
    list: &mut Vec<MapExpression<'e, 't>>,
) -> Result<(), AllocError>
    requires { AllZip IsConditionOf tokens.now trees.now }
    ensures { OnOk result (IsMore list.old.items list.new.items (all_asked condition_asked trees.now)) }
{
    for (index, tree) in trees.iter().enumerate() {
        add(alloc, tree, &tokens[index], None, list)?;
    }
    Ok(())
}

/// Adds what a state is mapped to, where it is no memory.
fn add_state<'e, 't, 'w: 't>(
    alloc: Global,
    state: &'e MappedTree<'t>,
    tokens: &'t StateTokens<'w>,
    sorts: &ModelSorts<'_>,
    list: &mut Vec<MapExpression<'e, 't>>,
) -> Result<(), AllocError>
    requires { IsStateOf sorts.now tokens.now state.now }
    ensures { OnOk result (IsMore list.old.items list.new.items (state_asked sorts.now state.now)) }
{
    match &tokens.tokens {
        Some(found) => {
            let width = width_of(sorts.state(state.name));
            add(alloc, &state.tree, found, width, list)?;
            Ok(())
        }
        None => Ok(()),
    }
}

/// Adds what the states are mapped to that are no memories.
fn add_states<'e, 't, 'w: 't>(
    alloc: Global,
    trees: &'e [MappedTree<'t>],
    tokens: &'t [StateTokens<'w>],
    sorts: &ModelSorts<'_>,
    list: &mut Vec<MapExpression<'e, 't>>,
) -> Result<(), AllocError>
    requires { AllZip (IsStateOf sorts.now) tokens.now trees.now }
    ensures { OnOk result (IsMore list.old.items list.new.items (all_asked (state_asked sorts.now) trees.now)) }
{
    for (index, tree) in trees.iter().enumerate() {
        add_state(alloc, tree, &tokens[index], sorts, list)?;
    }
    Ok(())
}

/// Adds what the inputs are mapped to.
fn add_inputs<'e, 't, 'w: 't>(
    alloc: Global,
    trees: &'e [MappedTree<'t>],
    tokens: &'t [EntryTokens<'w>],
    sorts: &ModelSorts<'_>,
    list: &mut Vec<MapExpression<'e, 't>>,
) -> Result<(), AllocError>
    requires { AllZip IsInputOf tokens.now trees.now }
    ensures { OnOk result (IsMore list.old.items list.new.items (all_asked (input_asked sorts.now) trees.now)) }
{
    for (index, tree) in trees.iter().enumerate() {
        let width = width_of(sorts.input(tree.name));
        add(alloc, &tree.tree, &tokens[index].tokens, width, list)?;
    }
    Ok(())
}

/// Adds the conditions of commits.
fn add_commits<'e, 't, 'w: 't>(
    alloc: Global,
    trees: &'e [InstructionTree<'t>],
    tokens: &'t [InstructionTokens<'w>],
    list: &mut Vec<MapExpression<'e, 't>>,
) -> Result<(), AllocError>
    requires { AllZip IsCommitOf tokens.now trees.now }
    ensures { OnOk result (IsMore list.old.items list.new.items (all_asked commit_asked trees.now)) }
{
    for (index, tree) in trees.iter().enumerate() {
        add(alloc, &tree.commit, &tokens[index].tokens, None, list)?;
    }
    Ok(())
}

/// All expressions of a map, in the order of its keys, where these are the tokens that its trees are read of.
pub(crate) fn expressions_of<'e, 't, 'w: 't>(
    alloc: Global,
    trees: &'e RefinementMap<'t>,
    tokens: &'t MapTokens<'w>,
    model: &IlaModel,
) -> Result<Vec<MapExpression<'e, 't>>, AllocError>
    requires { AreTreesOf (model_of model.now) tokens.now trees.now }
    ensures { IfOk result (λ v. (asked_list v.items ≡ asked_in (model_of model.now) (tree_map_view trees.now)) × AreNamed v.items) }
{
    let sorts = ModelSorts::of(alloc, model)?;
    let mut list = Vec::new(alloc);
    add_conditions(alloc, &trees.assume, &tokens.assume, &mut list)?;
    add_conditions(alloc, &trees.invariants, &tokens.invariants, &mut list)?;
    add(alloc, &trees.start, &tokens.start, None, &mut list)?;
    add_states(alloc, &trees.states, &tokens.states, &sorts, &mut list)?;
    add_inputs(alloc, &trees.inputs, &tokens.inputs, &sorts, &mut list)?;
    add_commits(alloc, &trees.instructions, &tokens.instructions, &mut list)?;
    Ok(list)
}
