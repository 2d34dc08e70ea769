//! From the bytes of the files of a check to the model and the design with its map, stage by stage.

ghost use Rattle.std.specs.Prelude.{◌≡◌, Ok, IfOk, List, ℕ, map};
ghost use Rattle.model_files.specs.Meaning.{model_reading, stands_for};
ghost use Rattle.map_file.specs.View.{map_view};
ghost use Rattle.map_rules.specs.Accepted.{case_of};
ghost use Rattle.map_rules.specs.Case.{case_design};
ghost use Rattle.map_trees.specs.Tokens.{AreMapTokens};
ghost use Rattle.verilog_text.specs.Text.{tokens_in};
ghost use Rattle.verilog_exists.specs.Exists.{IsOfText};
ghost use Rattle.v_token.specs.View.{tokens_of};
ghost use Rattle.v_syntax.specs.Source.{source_of};
ghost use Rattle.v_judged.specs.Refusal.{IsJudged};
ghost use Rattle.v_places.specs.Views.{spots_of};
ghost use Rattle.map_judged.specs.Known.{StandsAt};
ghost use Rattle.ila_model.specs.Model.{model_of};
ghost use Rattle.ready_maps.specs.Accepted.{HasAcceptedMap};
ghost use Rattle.map_terms.specs.View.{setting_of};
ghost use Rattle.check_cases.specs.Files.{IsSettingOf, SayModelAndMap, HaveTree};
ghost use Rattle.read_cases.specs.Told.{IsCaseOf, IsTold};

use crate::NoMemory;
use crate::names::names_of;
use crate::scope::scope_of_names;
use crate::sound::model_is_sound;
use accepted_maps::laws::accepted_maps_are_complete;
use designs_of_texts::laws::trees_are_of_texts;
use ila_json::{ModelStop, read_model};
use ila_model::IlaModel;
use ila_rules::ModelRefusal;
use map_file::{MapRefusal, MapStop, WrittenMap, map_heads};
use map_reading::read_map;
use map_terms::map_terms;
use map_trees::{MapTokens, RefinementMap, map_tokens};
use mapped_designs::MappedDesign;
use mapped_runs::sound::design_is_sound;
use ready_maps::laws::accepted_maps_are_ready;
use std::alloc::{AllocError, Global};
use v_elab::{Elaborated, elaborate};
use v_judged::{DesignKind, Judged, judged};
use v_lex::{LexRefusal, LexStop, Note, note_behind, tokens};
use v_parse::{ParseStop, parse};
use v_places::Place;
use v_syntax::module::Tree;
use v_token::token::Token;

/// What the files of a check are.
#[derive(Drop)]
pub enum FilesCase {
    /// No kind refuses them: the model, and the design with its map.
    Case(IlaModel, MappedDesign),
    /// The model file breaks a rule.
    Model(ModelRefusal),
    /// The map file breaks a rule, by itself or for the model and the design.
    MapFile(MapRefusal),
    /// The Verilog files have no tokens.
    Text(LexRefusal),
    /// Their tokens have no tree. The note leads to the first token with which no source goes on.
    Tokens(Note),
    /// The design that the map names breaks a rule.
    Design(DesignKind),
}

/// The case that the bytes of a model file, a map file and Verilog files are, or the first kind that refuses them.
///
/// # Errors
///
/// Out of memory, which says nothing of the files.
pub fn case_of_files(
    alloc: Global,
    model: &[u8],
    map_file: &[u8],
    designs: &[Vec<u8>],
) -> Result<FilesCase, NoMemory>
    ensures { IfOk result (IsTold model.now map_file.now (map (λ d. d.items) designs.now)) }
{
    match read_model(alloc, model) {
        Ok(read) => of_map_file(alloc, read, map_file, designs),
        Err(ModelStop::Refused(refusal)) => Ok(FilesCase::Model(refusal)),
        Err(ModelStop::NoMemory) => Err(AllocError),
    }
}

/// The same of files whose model file stands for this model.
fn of_map_file(
    alloc: Global,
    model: IlaModel,
    map_file: &[u8],
    designs: &[Vec<u8>],
) -> Result<FilesCase, NoMemory>
    ensures { IfOk result (λ t. (m : List ℕ) → model_reading m ≡ stands_for (model_of model) → IsTold m map_file.now (map (λ d. d.items) designs.now) t) }
{
    match map_heads(alloc, map_file) {
        Ok(heads) => of_text(alloc, model, heads.map(), designs),
        Err(MapStop::Refused(refusal)) => Ok(FilesCase::MapFile(refusal)),
        Err(MapStop::NoMemory) => Err(AllocError),
    }
}

/// The same of files whose map file says this.
fn of_text(
    alloc: Global,
    model: IlaModel,
    written: &WrittenMap,
    designs: &[Vec<u8>],
) -> Result<FilesCase, NoMemory>
    ensures { IfOk result (λ t. (m p : List ℕ) → SayModelAndMap m p (model_of model) (map_view written.now) → IsTold m p (map (λ d. d.items) designs.now) t) }
{
    match tokens(alloc, designs) {
        Ok(tokens) => of_tokens(alloc, model, written, designs, &tokens),
        Err(LexStop::Refused(refusal)) => Ok(FilesCase::Text(refusal)),
        Err(LexStop::NoMemory) => Err(AllocError),
    }
}

/// The same of files whose Verilog files have these tokens.
fn of_tokens(
    alloc: Global,
    model: IlaModel,
    written: &WrittenMap,
    designs: &[Vec<u8>],
    tokens: &[Token<'_>],
) -> Result<FilesCase, NoMemory>
    requires { tokens_in (map (λ d. d.items) designs.now) ≡ Ok (tokens_of tokens.now) }
    ensures { IfOk result (λ t. (m p : List ℕ) → SayModelAndMap m p (model_of model) (map_view written.now) → IsTold m p (map (λ d. d.items) designs.now) t) }
{
    trees_are_of_texts();
    match parse(alloc, tokens) {
        Ok(tree) => of_tree(&tree, alloc, model, written),
        Err(ParseStop::Refused(left)) => {
            let count = tokens.len().saturating_sub(left);
            match note_behind(alloc, designs, tokens, count) {
                Some(note) => Ok(FilesCase::Tokens(note)),
                None => Err(AllocError),
            }
        }
        Err(ParseStop::NoMemory) => Err(AllocError),
    }
}

/// The same of files whose Verilog files have this tree.
fn of_tree(
    tree: &Tree<'_>,
    alloc: Global,
    model: IlaModel,
    written: &WrittenMap,
) -> Result<FilesCase, NoMemory>
    requires { IsOfText (case_design (case_of (map_view written.now) (model_of model) (source_of tree.now))) }
    ensures { IfOk result (λ t. (m p : List ℕ) (ds : List (List ℕ)) → HaveTree m p ds (model_of model) (map_view written.now) (source_of tree.now) → IsTold m p ds t) }
{
    let told = judged(alloc, tree, written.top.as_str(), written.clock.as_str())?;
    of_judged(tree, told, alloc, model, written)
}

/// The same where this is told of the design.
fn of_judged<'t, 's>(
    tree: &'t Tree<'s>,
    told: Judged<'t, 's>,
    alloc: Global,
    model: IlaModel,
    written: &WrittenMap,
) -> Result<FilesCase, NoMemory>
    requires of_text { IsOfText (case_design (case_of (map_view written.now) (model_of model) (source_of tree.now))) }
    requires judged { IsJudged (case_design (case_of (map_view written.now) (model_of model) (source_of tree.now))) told }
    ensures { IfOk result (λ t. (m p : List ℕ) (ds : List (List ℕ)) → HaveTree m p ds (model_of model) (map_view written.now) (source_of tree.now) → IsTold m p ds t) }
{
    match told {
        Judged::Refused(kind) => Ok(FilesCase::Design(kind)),
        Judged::Accepted(places) => {
            let mut list = places;
            of_places(tree, list.as_mut_slice(), alloc, model, written)
        }
    }
}

/// The same where the design is accepted, and its modules stand at these places.
fn of_places<'t, 's>(
    tree: &'t Tree<'s>,
    places: &'t [Place<'t, 's>],
    alloc: Global,
    model: IlaModel,
    written: &WrittenMap,
) -> Result<FilesCase, NoMemory>
    requires { StandsAt (case_design (case_of (map_view written.now) (model_of model) (source_of tree.now))) (spots_of places.now) }
    ensures { IfOk result (λ t. (m p : List ℕ) (ds : List (List ℕ)) → HaveTree m p ds (model_of model) (map_view written.now) (source_of tree.now) → IsTold m p ds t) }
{
    let tokens = map_tokens(alloc, written, &model)?;
    match read_map(tree, places, alloc, &model, &tokens) {
        Ok(read) => {
            let mapped = mapped_design(tree, places, &read, alloc, &model, &tokens)?;
            Ok(FilesCase::Case(model, mapped))
        }
        Err(MapStop::Refused(refusal)) => Ok(FilesCase::MapFile(refusal)),
        Err(MapStop::NoMemory) => Err(AllocError),
    }
}

/// The design with the terms of an accepted map. The design is judged once more by `elaborate`.
fn mapped_design<'t, 's>(
    tree: &'t Tree<'s>,
    places: &'t [Place<'t, 's>],
    map: &RefinementMap<'_>,
    alloc: Global,
    model: &IlaModel,
    tokens: &MapTokens<'_>,
) -> Result<MappedDesign, NoMemory>
    requires tokens { AreMapTokens (model_of model.now) (map_view tokens.now.map.now) tokens.now }
    requires accepted { HasAcceptedMap (setting_of model.now map.now (source_of tree.now)) (map_view tokens.now.map.now) }
    requires places { StandsAt (case_design (case_of (map_view tokens.now.map.now) (model_of model.now) (source_of tree.now))) (spots_of places.now) }
    ensures { IfOk result (λ r. (m p : List ℕ) (ds : List (List ℕ)) → IsSettingOf m p ds (setting_of model.now map.now (source_of tree.now)) → IsCaseOf m p ds model.now r) }
{
    model_is_sound(model);
    accepted_maps_are_ready();
    accepted_maps_are_complete();
    let names = names_of(alloc, tokens)?;
    let scope = scope_of_names(places, alloc, &names)?;
    let written = tokens.map;
    match elaborate(alloc, tree, written.top.as_str(), written.clock.as_str())? {
        Elaborated::Design(design) => {
            let mapped = map_terms(alloc, map, &scope, model, design)?;
            design_is_sound(&mapped.design);
            Ok(mapped)
        }
        Elaborated::Refused(_) => unreachable!(),
    }
}
