//! A written map for a model and a design: the map that it stands for, or the first rule that refuses it.

ghost use Rattle.std.specs.Prelude.{◌∷◌, [], IfOk};
ghost use Rattle.ila_model.specs.Model.{model_of};
ghost use Rattle.v_syntax.specs.Source.{source_of};
ghost use Rattle.map_files.specs.Meaning.{BadExpression, WidthMismatch, MapUsesInput};
ghost use Rattle.map_file.specs.View.{map_view};
ghost use Rattle.map_rules.specs.Case.{case_design};
ghost use Rattle.map_rules.specs.Accepted.{StandsForMap, case_of};
ghost use Rattle.map_trees.specs.Tokens.{AreMapTokens};
ghost use Rattle.map_trees.specs.View.{tree_map_view};
ghost use Rattle.v_places.specs.Views.{spots_of};
ghost use Rattle.map_judged.specs.Known.{StandsAt};
ghost use Rattle.map_reading.specs.Judged.{IsMapJudged, IsPassed};

use crate::entries::entries_passed;
use crate::expressions::expressions_passed;
use crate::flags::flags_of;
use crate::listed::expressions_of;
use crate::memories::memories_passed;
use crate::names::names_passed;
use crate::places::places_of;
use ila_file::NoMemory;
use ila_model::IlaModel;
use map_file::MapStop;
use map_judged::known_names;
use map_trees::{MapTokens, RefinementMap, map_trees};
use std::alloc::Global;
use v_places::Place;
use v_syntax::module::Tree;

/// What is told of the expressions of a map with these trees, where memory serves.
fn told_of_expressions<'p, 't, 's: 't, 'w: 't>(
    tree: &'p Tree<'s>,
    places: &'p [Place<'p, 's>],
    trees: &RefinementMap<'t>,
    alloc: Global,
    model: &IlaModel,
    tokens: &'t MapTokens<'w>,
) -> Result<Result<(), MapStop>, NoMemory>
    requires tokens { AreMapTokens (model_of model.now) (map_view tokens.now.map.now) tokens.now }
    requires stands { StandsForMap (model_of model.now) (map_view tokens.now.map.now) (tree_map_view trees.now) }
    requires places { StandsAt (case_design (case_of (map_view tokens.now.map.now) (model_of model.now) (source_of tree.now))) (spots_of places.now) }
    ensures { IfOk result (λ r. IsPassed (case_of (map_view tokens.now.map.now) (model_of model.now) (source_of tree.now)) (BadExpression ∷ WidthMismatch ∷ MapUsesInput ∷ []) r) }
{
    let map = tokens.map;
    let expressions = expressions_of(alloc, trees, tokens, model)?;
    let asked = flags_of(alloc, tokens)?;
    let spots = places_of(alloc, tokens)?;
    let known = known_names(alloc, tree, places, &expressions, map.clock.as_str())?;
    Ok(expressions_passed(
        tree,
        places,
        alloc,
        &expressions,
        &known,
        &asked,
        map,
        &spots,
    ))
}

/// No rule on expressions is broken by a map with these trees; or the refusal by the first that is.
fn trees_passed<'p, 't, 's: 't, 'w: 't>(
    tree: &'p Tree<'s>,
    places: &'p [Place<'p, 's>],
    trees: &RefinementMap<'t>,
    alloc: Global,
    model: &IlaModel,
    tokens: &'t MapTokens<'w>,
) -> Result<(), MapStop>
    requires tokens { AreMapTokens (model_of model.now) (map_view tokens.now.map.now) tokens.now }
    requires stands { StandsForMap (model_of model.now) (map_view tokens.now.map.now) (tree_map_view trees.now) }
    requires places { StandsAt (case_design (case_of (map_view tokens.now.map.now) (model_of model.now) (source_of tree.now))) (spots_of places.now) }
    ensures { IsPassed (case_of (map_view tokens.now.map.now) (model_of model.now) (source_of tree.now)) (BadExpression ∷ WidthMismatch ∷ MapUsesInput ∷ []) result }
{
    match told_of_expressions(tree, places, trees, alloc, model, tokens) {
        Ok(told) => told,
        Err(_) => Err(MapStop::NoMemory),
    }
}

/// The map that a written one stands for, with the trees of its expressions; or its refusal by the first rule that it breaks. These are the
/// tokens of the written map for the model. The design that it names, by its top and its clock, is accepted; its modules stand at these places.
///
/// The note of a refusal leads to the place in the map; where a text is read as no expression, also to the place in the text.
pub fn read_map<'p, 't, 's: 't, 'w: 't>(
    tree: &'p Tree<'s>,
    places: &'p [Place<'p, 's>],
    alloc: Global,
    model: &IlaModel,
    tokens: &'t MapTokens<'w>,
) -> Result<RefinementMap<'t>, MapStop>
    requires tokens { AreMapTokens (model_of model.now) (map_view tokens.now.map.now) tokens.now }
    requires places { StandsAt (case_design (case_of (map_view tokens.now.map.now) (model_of model.now) (source_of tree.now))) (spots_of places.now) }
    ensures judged { IsMapJudged (case_of (map_view tokens.now.map.now) (model_of model.now) (source_of tree.now)) result }
{
    let map = tokens.map;
    names_passed(alloc, map, model)?;
    let trees = map_trees(alloc, tokens)?;
    trees_passed(tree, places, &trees, alloc, model, tokens)?;
    memories_passed(places, alloc, map, model)?;
    entries_passed(alloc, map, model)?;
    Ok(trees)
}
