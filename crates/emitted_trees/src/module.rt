//! The module of a model's emitted design.

ghost use Rattle.std.specs.Prelude.{◌≡◌, ◌<◌, ◌++◌, ◌∷◌, [], suc, codes, length, map, slice_index_or, false, IfOk};
ghost use Rattle.std.specs.String.{string_bytes};
ghost use Rattle.verilog_trees.specs.Syntax as pure;
ghost use Rattle.v_syntax.specs.Tree.{tree_of};
ghost use Rattle.v_syntax.specs.Source.{item_of, module_of};
ghost use Rattle.emitted_modules.specs.Rtl as rtl;
ghost use Rattle.emitted_modules.specs.Nodes.{node_wires};
ghost use Rattle.emitted_modules.specs.Module.{one_name, decodes_of, decode_wires, ready_of, emitted_module};
ghost use Rattle.emitted_trees.specs.Emitted.{decodes_among, ready_from, start_items, registers_and_terms, instruction_wires, clocked_for, items_for};
ghost use Rattle.emitted_modules.specs.Kept.{IsOrdered};
ghost use Rattle.emitted_names.specs.Ids.{kept_by};
ghost use Rattle.emitted_names.specs.Named.{AreNumbered, AreNamesFor, AreDecodingNames};
ghost use Rattle.emitted_names.specs.Parts.{AreWords, AreWaysTo};
ghost use Rattle.emitted_names.specs.Within.{AreWithin};

use crate::NoMemory;
use crate::clocked::clocked_block;
use crate::decoding::{DecodingNames, ready, with_decodes};
use crate::expressions::whole;
use crate::items::{assign_item, registers, with_item};
use crate::nodes::Wires;
use crate::ports::port_list;
use crate::ways::with_ways;
use crate::words::with_nodes;
use emitted_names::{ModuleNames, PartName, Way, check_stored, kept_ids, name_at};
use ila_model::{IlaModel, Instruction};
use std::alloc::{AllocError, Global};
use v_expr::ExpressionStop;
use v_syntax::module::{Item, Module, Ports};
use v_syntax::tree::Expression;
use wb_terms::TermId;

/// The decode conditions of instructions.
fn decodes(alloc: Global, instructions: &[Instruction]) -> Result<Vec<TermId>, NoMemory>
    ensures { IfOk result (λ v. v.items ≡ decodes_among instructions.now) }
{
    let mut ids = Vec::new(alloc);
    for instruction in instructions {
        ids.push(instruction.decode)?;
    }
    Ok(ids)
}

/// Items with the wires of the kept terms behind them.
fn with_kept_wires<'n>(
    alloc: Global,
    items: Vec<Item<'n>>,
    wires: Wires<'n>,
    words: &'n [Vec<PartName>],
    keep: &[bool],
) -> Result<Vec<Item<'n>>, ExpressionStop>
    requires ordered { IsOrdered wires.terms.now }
    requires words { AreWords wires.terms.now (kept_by keep.now) (length wires.terms.now.nodes) words.now }
    requires named { AreNumbered (codes "wb_t") (length wires.terms.now.nodes) wires.names.now }
    ensures { IfOk result (λ v. map item_of v.items ≡ map item_of items.entry.items ++ map rtl.wire_item (node_wires wires.entry.terms.now (kept_by keep.now) 0 wires.entry.terms.now.nodes)) }
{
    let ids = kept_ids(alloc, wires.terms, keep)?;
    let items = with_nodes(alloc, items, wires, words, keep, ids.as_slice())?;
    Ok(items)
}

/// Items with the wires behind them that say which instruction decodes.
fn with_decode_wires<'n>(
    alloc: Global,
    items: Vec<Item<'n>>,
    wires: Wires<'n>,
    names: DecodingNames<'n>,
    instructions: &[Instruction],
) -> Result<Vec<Item<'n>>, ExpressionStop>
    requires within { AreWithin wires.terms.now instructions.now }
    requires named { AreNumbered (codes "wb_t") (length wires.terms.now.nodes) wires.names.now }
    requires none { length names.nones.now ≡ suc (length instructions.now) }
    requires one { length names.ones.now ≡ suc (length instructions.now) }
    requires decoding { AreDecodingNames names.nones.now names.ones.now }
    ensures { IfOk result (λ v. map item_of v.items ≡ map item_of items.entry.items ++ map rtl.wire_item (decode_wires (decodes_of wires.entry.terms.now instructions.now))) }
{
    let decodes = decodes(alloc, instructions)?;
    let items = with_decodes(alloc, items, wires, names, decodes.as_slice())?;
    Ok(items)
}

/// Items with the assignments to `wb_start` and `wb_commit` behind them.
fn with_start<'n>(
    alloc: Global,
    items: Vec<Item<'n>>,
    ready: Expression<'n>,
) -> Result<Vec<Item<'n>>, NoMemory>
    ensures { IfOk result (λ v. map item_of v.items ≡ map item_of items.entry.items ++ start_items (tree_of ready.entry)) }
{
    let start = assign_item(alloc, "wb_start", ready)?;
    let items = with_item(items, start)?;
    let commit = assign_item(alloc, "wb_commit", whole("wb_start"))?;
    let items = with_item(items, commit)?;
    Ok(items)
}

/// Items with what starts instructions and ends them behind them.
fn with_ready<'n>(
    alloc: Global,
    items: Vec<Item<'n>>,
    wires: Wires<'n>,
    valid: TermId,
    one: &'n str,
) -> Result<Vec<Item<'n>>, ExpressionStop>
    requires valid { valid.0 < length wires.terms.now.nodes }
    requires named { AreNumbered (codes "wb_t") (length wires.terms.now.nodes) wires.names.now }
    ensures { IfOk result (λ v. map item_of v.items ≡ map item_of items.entry.items ++ start_items (ready_from wires.entry.terms.now valid.0 one.now)) }
{
    let ready = ready(alloc, wires, valid, one)?;
    let items = with_start(alloc, items, ready)?;
    Ok(items)
}

/// The terms of the model with the names of their wires.
fn wires_of<'n>(model: &'n IlaModel, names: &'n ModuleNames) -> Wires<'n>
    requires { AreNumbered (codes "wb_t") (length model.now.parts.terms.nodes) names.now.terms.items }
    ensures terms { result.terms.now ≡ model.now.parts.terms }
    ensures named { AreNumbered (codes "wb_t") (length model.now.parts.terms.nodes) result.names.now }
{
    Wires {
        terms: &model.parts.terms,
        names: names.terms.as_slice(),
    }
}

/// The names of the wires that say which instruction decodes.
fn decoding_of<'n>(model: &IlaModel, names: &'n ModuleNames) -> DecodingNames<'n>
    requires nones { AreNumbered (codes "wb_none_") (suc (length model.now.parts.instructions.items)) names.now.nones.items }
    requires ones { AreNumbered (codes "wb_one_") (suc (length model.now.parts.instructions.items)) names.now.ones.items }
    ensures none { length result.nones.now ≡ suc (length model.now.parts.instructions.items) }
    ensures one { length result.ones.now ≡ suc (length model.now.parts.instructions.items) }
    ensures decoding { AreDecodingNames result.nones.now result.ones.now }
{
    let _model = model;
    DecodingNames {
        nones: names.nones.as_slice(),
        ones: names.ones.as_slice(),
    }
}

/// The registers of the model's emitted design, and the wires of its terms.
fn first_items<'n>(
    alloc: Global,
    model: &'n IlaModel,
    wires: Wires<'n>,
    words: &'n [Vec<PartName>],
    keep: &[bool],
) -> Result<Vec<Item<'n>>, ExpressionStop>
    requires terms { wires.terms.now ≡ model.now.parts.terms }
    requires ordered { IsOrdered wires.terms.now }
    requires named { AreNumbered (codes "wb_t") (length wires.terms.now.nodes) wires.names.now }
    requires words { AreWords wires.terms.now (kept_by keep.now) (length wires.terms.now.nodes) words.now }
    ensures { IfOk result (λ v. map item_of v.items ≡ registers_and_terms model.now.parts (kept_by keep.now)) }
{
    let items = registers(alloc, model)?;
    let items = with_kept_wires(alloc, items, wires, words, keep)?;
    Ok(items)
}

/// Items with the wires behind them that say which instruction decodes, and by which way memories are updated.
fn with_instructions<'n>(
    alloc: Global,
    items: Vec<Item<'n>>,
    wires: Wires<'n>,
    names: DecodingNames<'n>,
    ways: &'n [Vec<Way>],
    instructions: &[Instruction],
) -> Result<Vec<Item<'n>>, ExpressionStop>
    requires within { AreWithin wires.terms.now instructions.now }
    requires named { AreNumbered (codes "wb_t") (length wires.terms.now.nodes) wires.names.now }
    requires none { length names.nones.now ≡ suc (length instructions.now) }
    requires one { length names.ones.now ≡ suc (length instructions.now) }
    requires decoding { AreDecodingNames names.nones.now names.ones.now }
    requires ways { AreWaysTo wires.terms.now instructions.now (length instructions.now) ways.now }
    ensures { IfOk result (λ v. map item_of v.items ≡ map item_of items.entry.items ++ instruction_wires wires.entry.terms.now instructions.now) }
{
    let items = with_decode_wires(alloc, items, wires, names, instructions)?;
    let items = with_ways(alloc, items, wires, ways, instructions)?;
    Ok(items)
}

/// Items with the assignments and the clocked block of the model's emitted design behind them.
fn with_last_items<'n>(
    alloc: Global,
    items: Vec<Item<'n>>,
    model: &'n IlaModel,
    wires: Wires<'n>,
    ways: &'n [Vec<Way>],
    one: &'n str,
) -> Result<Vec<Item<'n>>, ExpressionStop>
    requires terms { wires.terms.now ≡ model.now.parts.terms }
    requires ways { AreWaysTo model.now.parts.terms model.now.parts.instructions.items (length model.now.parts.instructions.items) ways.now }
    requires named { AreNumbered (codes "wb_t") (length wires.terms.now.nodes) wires.names.now }
    requires one { one.now ≡ one_name (length model.now.parts.instructions.items) }
    ensures { IfOk result (λ v. map item_of v.items ≡ map item_of items.entry.items ++ start_items (ready_of model.now.parts) ++ pure.always rtl.at_clock (clocked_for model.now.parts) ∷ []) }
{
    let items = with_ready(alloc, items, wires, model.parts.valid, one)?;
    let block = clocked_block(alloc, wires, model, ways)?;
    let items = with_item(items, block)?;
    Ok(items)
}

/// The items of the model's emitted design.
fn emitted_items<'n>(
    alloc: Global,
    model: &'n IlaModel,
    names: &'n ModuleNames,
    keep: &[bool],
) -> Result<Vec<Item<'n>>, ExpressionStop>
    requires { AreNamesFor model.now.parts (kept_by keep.now) names.now.terms.items names.now.nones.items names.now.ones.items names.now.words.items names.now.ways.items }
    ensures { IfOk result (λ v. map item_of v.items ≡ items_for model.now.parts (kept_by keep.now)) }
{
    check_stored(&model.parts.terms);
    let wires = wires_of(model, names);
    let decoding = decoding_of(model, names);
    let instructions = model.parts.instructions.as_slice();
    let ways = names.ways.as_slice();
    let count = model.parts.instructions.len();
    let one = name_at(decoding.ones, count);
    let items = first_items(alloc, model, wires, names.words.as_slice(), keep)?;
    let items = with_instructions(alloc, items, wires, decoding, ways, instructions)?;
    let items = with_last_items(alloc, items, model, wires, ways, one)?;
    Ok(items)
}

/// The module, where it is told what else than memory could stop.
fn module_tree<'n>(
    alloc: Global,
    model: &'n IlaModel,
    names: &'n ModuleNames,
    keep: &[bool],
) -> Result<Module<'n>, ExpressionStop>
    requires { AreNamesFor model.now.parts (kept_by keep.now) names.now.terms.items names.now.nones.items names.now.ones.items names.now.words.items names.now.ways.items }
    ensures { IfOk result (λ m. module_of m ≡ emitted_module (string_bytes model.now.name) model.now.parts (kept_by keep.now)) }
{
    let items = emitted_items(alloc, model, names, keep)?;
    let ports = port_list(alloc, model)?;
    Ok(Module {
        name: model.name.as_str(),
        parameters: Vec::new(alloc),
        ports: Ports::Declared(ports),
        items,
    })
}

/// The module of the model's emitted design as a tree, with a wire for each marked term that is no name or constant. It borrows the names of
/// the wires, and those of the model.
pub fn emitted_tree<'n>(
    alloc: Global,
    model: &'n IlaModel,
    names: &'n ModuleNames,
    keep: &[bool],
) -> Result<Module<'n>, NoMemory>
    requires names { AreNamesFor model.now.parts (λ k. slice_index_or keep.now k false) names.now.terms.items names.now.nones.items names.now.ones.items names.now.words.items names.now.ways.items }
    ensures { IfOk result (λ m. module_of m ≡ emitted_module (string_bytes model.now.name) model.now.parts (λ k. slice_index_or keep.now k false)) }
{
    match module_tree(alloc, model, names, keep) {
        Ok(module) => Ok(module),
        Err(_) => Err(AllocError),
    }
}
