//! The wires that say by which way memories are updated, and the stores that are made on these ways.

ghost use Rattle.std.specs.Prelude.{◌≡◌, ◌<◌, ◌++◌, ◌∷◌, ◌==◌, [], ℕ, List, suc, codes, length, map, option_map, slice_get, slice_index_or, Some, IfOk, Vec};
ghost use Rattle.std.specs.String.{string_bytes};
ghost use Rattle.verilog_trees.specs.Syntax as pure;
ghost use Rattle.verilog_meaning.specs.Settled.{whole_name};
ghost use Rattle.v_syntax.specs.Tree.{tree_of, statement_of};
ghost use Rattle.v_syntax.specs.Source.{item_of};
ghost use Rattle.emitted_modules.specs.Rtl as rtl;
ghost use Rattle.emitted_modules.specs.Nodes.{node_at, operand};
ghost use Rattle.emitted_modules.specs.Module.{all_ways, all_stores, memories_from};
ghost use Rattle.emitted_modules.specs.Stores.{MemoryUpdate, via_name, if_so, any_of, ways_from, ways_to, via_expression, via_wire, via_wires, stores_at, stores_of};
ghost use Rattle.emitted_trees.specs.Items.{stored};
ghost use Rattle.emitted_names.specs.declared.ways.Way.{Way};
ghost use Rattle.std.specs.Global.{Global};
ghost use Rattle.emitted_names.specs.Named.{AreNumbered};
ghost use Rattle.emitted_names.specs.Parts.{update_of, IsWay, AreAllWays, AreWaysTo};
ghost use Rattle.emitted_trees.specs.Words.{any_so_far, wires_at};

use crate::NoMemory;
use crate::expressions::{both, either, sized, whole};
use crate::items::{net, with_item};
use crate::nodes::{Wires, is_changed, operand, prefixed_term};
use crate::statements::{guarded, stores, with_statement};
use crate::words::part_at;
use emitted_names::{PartName, Way, instruction_at, node_of};
use ila_model::Instruction;
use std::alloc::Global;
use v_expr::ExpressionStop;
use v_syntax::module::Item;
use v_syntax::tree::{Expression, PrefixOperator, Statement};
use wb_terms::{Node, Sort, TermId};

/// Whether two terms are one.
fn is_same(x: TermId, y: TermId) -> bool
    ensures { result ≡ (x.0 == y.0) }
{
    x.0 == y.0
}

/// What was so far, or one thing more.
fn joined<'n>(
    alloc: Global,
    all: Option<Expression<'n>>,
    way: Expression<'n>,
) -> Result<Option<Expression<'n>>, ExpressionStop>
    ensures { IfOk result (λ o. (es : List pure.Expression) → option_map tree_of all.entry ≡ any_so_far es → option_map tree_of o ≡ any_so_far (es ++ tree_of way.entry ∷ [])) }
{
    match all {
        None => Ok(Some(way)),
        Some(first) => {
            let made = either(alloc, first, way)?;
            Ok(Some(made))
        }
    }
}

/// The way from a store.
fn with_stored<'n>(
    alloc: Global,
    all: Option<Expression<'n>>,
    name: &'n str,
    is_way: bool,
) -> Result<Option<Expression<'n>>, ExpressionStop>
    ensures { IfOk result (λ o. (es : List pure.Expression) → option_map tree_of all.entry ≡ any_so_far es → option_map tree_of o ≡ any_so_far (es ++ if_so is_way (whole_name name.now))) }
{
    if !is_way {
        return Ok(all);
    }
    let more = joined(alloc, all, whole(name))?;
    Ok(more)
}

/// The way from a choice to the memory that is chosen where the condition holds.
fn with_chosen<'n>(
    alloc: Global,
    all: Option<Expression<'n>>,
    wires: Wires<'n>,
    name: &'n str,
    condition: TermId,
    is_way: bool,
) -> Result<Option<Expression<'n>>, ExpressionStop>
    requires condition { condition.0 < length wires.terms.now.nodes }
    requires named { AreNumbered (codes "wb_t") (length wires.terms.now.nodes) wires.names.now }
    ensures { IfOk result (λ o. (es : List pure.Expression) → option_map tree_of all.entry ≡ any_so_far es
        → option_map tree_of o ≡ any_so_far (es ++ if_so is_way (pure.binary pure.bitwise_and (whole_name name.now) (operand wires.entry.terms.now condition.0)))) }
{
    if !is_way {
        return Ok(all);
    }
    let way = both(alloc, whole(name), operand(wires, condition))?;
    let more = joined(alloc, all, way)?;
    Ok(more)
}

/// The way from a choice to the memory that is chosen where the condition fails.
fn with_other<'n>(
    alloc: Global,
    all: Option<Expression<'n>>,
    wires: Wires<'n>,
    name: &'n str,
    condition: TermId,
    is_way: bool,
) -> Result<Option<Expression<'n>>, ExpressionStop>
    requires condition { condition.0 < length wires.terms.now.nodes }
    requires named { AreNumbered (codes "wb_t") (length wires.terms.now.nodes) wires.names.now }
    ensures { IfOk result (λ o. (es : List pure.Expression) → option_map tree_of all.entry ≡ any_so_far es
        → option_map tree_of o ≡ any_so_far (es ++ if_so is_way (pure.binary pure.bitwise_and (whole_name name.now) (pure.unary pure.complement (operand wires.entry.terms.now condition.0))))) }
{
    if !is_way {
        return Ok(all);
    }
    let not = prefixed_term(alloc, wires, PrefixOperator::Complement, condition)?;
    let way = both(alloc, whole(name), not)?;
    let more = joined(alloc, all, way)?;
    Ok(more)
}

/// The ways from one node to another one.
fn with_ways_from<'n>(
    alloc: Global,
    all: Option<Expression<'n>>,
    wires: Wires<'n>,
    part: &'n PartName,
    to: TermId,
) -> Result<Option<Expression<'n>>, ExpressionStop>
    requires part { part.now.id.0 < length wires.terms.now.nodes }
    requires named { AreNumbered (codes "wb_t") (length wires.terms.now.nodes) wires.names.now }
    ensures { IfOk result (λ o. (u : MemoryUpdate) (es : List pure.Expression) → string_bytes part.now.name ≡ via_name u part.now.id.0
        → option_map tree_of all.entry ≡ any_so_far es
        → option_map tree_of o ≡ any_so_far (es ++ ways_from wires.entry.terms.now u part.now.id.0 to.0 (node_at wires.entry.terms.now part.now.id.0))) }
{
    match node_of(wires.terms, part.id) {
        Node::Store(memory, _, _) => {
            let is_way = is_same(memory, to);
            let more = with_stored(alloc, all, part.name.as_str(), is_way)?;
            Ok(more)
        }
        Node::Ite(condition, x, y) => {
            let name = part.name.as_str();
            let is_first = is_same(x, to);
            let is_second = is_same(y, to);
            let first = with_chosen(alloc, all, wires, name, condition, is_first)?;
            let more = with_other(alloc, first, wires, name, condition, is_second)?;
            Ok(more)
        }
        _ => Ok(all),
    }
}

/// The ways to a node, from the highest node down.
fn ways_so_far<'n>(
    alloc: Global,
    wires: Wires<'n>,
    way: &'n Way,
    to: TermId,
) -> Result<Option<Expression<'n>>, ExpressionStop>
    requires way { IsWay wires.terms.now way.now }
    requires named { AreNumbered (codes "wb_t") (length wires.terms.now.nodes) wires.names.now }
    ensures { IfOk result (λ o. option_map tree_of o ≡ any_so_far (ways_to wires.entry.terms.now (update_of wires.entry.terms.now way.now) (suc way.now.term.0) to.0)) }
{
    let parts = way.parts.as_slice();
    let mut all = None;
    for done in 0..parts.len() {
        let part = part_at(parts, parts.len() - 1 - done);
        all = with_ways_from(alloc, all, wires, part, to)?;
    }
    Ok(all)
}

/// What was so far, or 0.
fn any_of<'n>(all: Option<Expression<'n>>) -> Expression<'n>
    ensures { (es : List pure.Expression) → option_map tree_of all.entry ≡ any_so_far es → tree_of result ≡ any_of es }
{
    match all {
        Some(made) => made,
        None => sized(1, 0),
    }
}

/// That an update is made by way of a node.
fn via<'n>(
    alloc: Global,
    wires: Wires<'n>,
    way: &'n Way,
    to: TermId,
) -> Result<Expression<'n>, ExpressionStop>
    requires way { IsWay wires.terms.now way.now }
    requires named { AreNumbered (codes "wb_t") (length wires.terms.now.nodes) wires.names.now }
    ensures { IfOk result (λ e. tree_of e ≡ via_expression wires.entry.terms.now (update_of wires.entry.terms.now way.now) to.0) }
{
    if is_same(to, way.term) {
        return Ok(operand(wires, way.decode));
    }
    let all = ways_so_far(alloc, wires, way, to)?;
    Ok(any_of(all))
}

/// Items with the wire behind them that says whether an update is made by way of a node, if the node has one.
fn with_via<'n>(
    alloc: Global,
    items: Vec<Item<'n>>,
    wires: Wires<'n>,
    way: &'n Way,
    part: &'n PartName,
) -> Result<Vec<Item<'n>>, ExpressionStop>
    requires way { IsWay wires.terms.now way.now }
    requires part { part.now.id.0 < length wires.terms.now.nodes }
    requires name { string_bytes part.now.name ≡ via_name (update_of wires.terms.now way.now) part.now.id.0 }
    requires named { AreNumbered (codes "wb_t") (length wires.terms.now.nodes) wires.names.now }
    ensures { IfOk result (λ v. map item_of v.items ≡ map item_of items.entry.items
        ++ wires_at wires.entry.terms.now (via_wire wires.entry.terms.now (update_of wires.entry.terms.now way.now)) part.now.id.0) }
{
    if !is_changed(node_of(wires.terms, part.id)) {
        return Ok(items);
    }
    let value = via(alloc, wires, way, part.id)?;
    let item = net(alloc, part.name.as_str(), Sort::Truth, value)?;
    let all = with_item(items, item)?;
    Ok(all)
}

/// Items with the wires behind them that say by which way an update is made, from the highest node down.
fn with_vias<'n>(
    alloc: Global,
    items: Vec<Item<'n>>,
    wires: Wires<'n>,
    way: &'n Way,
) -> Result<Vec<Item<'n>>, ExpressionStop>
    requires way { IsWay wires.terms.now way.now }
    requires named { AreNumbered (codes "wb_t") (length wires.terms.now.nodes) wires.names.now }
    ensures { IfOk result (λ v. map item_of v.items ≡ map item_of items.entry.items
        ++ map rtl.wire_item (via_wires wires.entry.terms.now (update_of wires.entry.terms.now way.now) (suc way.now.term.0))) }
{
    let parts = way.parts.as_slice();
    let mut all = items;
    for done in 0..parts.len() {
        let part = part_at(parts, parts.len() - 1 - done);
        all = with_via(alloc, all, wires, way, part)?;
    }
    Ok(all)
}

/// The update at a place of a list.
fn way_at<'n>(ways: &'n [Way], place: usize) -> &'n Way
    requires { place < length ways.now }
    ensures { slice_get ways.now place ≡ Some result.now }
{
    &ways[place]
}

/// Items with the wires of some updates behind them.
fn with_all_vias<'n>(
    alloc: Global,
    items: Vec<Item<'n>>,
    wires: Wires<'n>,
    ways: &'n [Way],
) -> Result<Vec<Item<'n>>, ExpressionStop>
    requires ways { AreAllWays wires.terms.now ways.now }
    requires named { AreNumbered (codes "wb_t") (length wires.terms.now.nodes) wires.names.now }
    ensures { IfOk result (λ v. map item_of v.items ≡ map item_of items.entry.items
        ++ map rtl.wire_item (all_ways wires.entry.terms.now (map (update_of wires.entry.terms.now) ways.now))) }
{
    let mut all = items;
    for place in 0..ways.len() {
        all = with_vias(alloc, all, wires, way_at(ways, place))?;
    }
    Ok(all)
}

/// The updates of an instruction.
pub(crate) fn ways_at<'n>(rows: &'n [Vec<Way>], place: usize) -> &'n [Way]
    requires { place < length rows.now }
    ensures { (d : Vec Way Global) → result.now ≡ (slice_index_or rows.now place d).items }
{
    rows[place].as_slice()
}

/// Items with the wires of the updates of all instructions behind them.
pub(crate) fn with_ways<'n>(
    alloc: Global,
    items: Vec<Item<'n>>,
    wires: Wires<'n>,
    rows: &'n [Vec<Way>],
    instructions: &[Instruction],
) -> Result<Vec<Item<'n>>, ExpressionStop>
    requires ways { AreWaysTo wires.terms.now instructions.now (length instructions.now) rows.now }
    requires named { AreNumbered (codes "wb_t") (length wires.terms.now.nodes) wires.names.now }
    ensures { IfOk result (λ v. map item_of v.items ≡ map item_of items.entry.items
        ++ map rtl.wire_item (all_ways wires.entry.terms.now (memories_from wires.entry.terms.now 0 instructions.now))) }
{
    let mut all = items;
    for number in 0..instructions.len() {
        let _instruction = instruction_at(instructions, number);
        all = with_all_vias(alloc, all, wires, ways_at(rows, number))?;
    }
    Ok(all)
}

/// A store to a word of a memory, where its wire says that it is made.
fn guarded_store<'n>(
    alloc: Global,
    wires: Wires<'n>,
    condition: &'n str,
    memory: &'n str,
    address: TermId,
    value: TermId,
) -> Result<Statement<'n>, NoMemory>
    requires address { address.0 < length wires.terms.now.nodes }
    requires value { value.0 < length wires.terms.now.nodes }
    requires named { AreNumbered (codes "wb_t") (length wires.terms.now.nodes) wires.names.now }
    ensures { IfOk result (λ x. statement_of x ≡ pure.if_then (whole_name condition.now) (stored memory.now (operand wires.entry.terms.now address.0) (operand wires.entry.terms.now value.0))) }
{
    let store = stores(
        alloc,
        memory,
        operand(wires, address),
        operand(wires, value),
    )?;
    let made = guarded(alloc, whole(condition), store)?;
    Ok(made)
}

/// Statements with the store of a node behind them, if it is one.
fn with_store<'n>(
    alloc: Global,
    statements: Vec<Statement<'n>>,
    wires: Wires<'n>,
    memory: &'n str,
    part: &'n PartName,
) -> Result<Vec<Statement<'n>>, NoMemory>
    requires part { part.now.id.0 < length wires.terms.now.nodes }
    requires named { AreNumbered (codes "wb_t") (length wires.terms.now.nodes) wires.names.now }
    ensures { IfOk result (λ v. (u : MemoryUpdate) → string_bytes part.now.name ≡ via_name u part.now.id.0 → memory.now ≡ u.memory_name
        → map statement_of v.items ≡ map statement_of statements.entry.items
        ++ map rtl.writes (stores_at wires.entry.terms.now u part.now.id.0 (node_at wires.entry.terms.now part.now.id.0))) }
{
    match node_of(wires.terms, part.id) {
        Node::Store(_, address, value) => {
            let name = part.name.as_str();
            let made = guarded_store(alloc, wires, name, memory, address, value)?;
            let all = with_statement(statements, made)?;
            Ok(all)
        }
        _ => Ok(statements),
    }
}

/// Statements with the stores of an update behind them, the inner ones first.
fn with_stores<'n>(
    alloc: Global,
    statements: Vec<Statement<'n>>,
    wires: Wires<'n>,
    way: &'n Way,
) -> Result<Vec<Statement<'n>>, NoMemory>
    requires way { IsWay wires.terms.now way.now }
    requires named { AreNumbered (codes "wb_t") (length wires.terms.now.nodes) wires.names.now }
    ensures { IfOk result (λ v. map statement_of v.items ≡ map statement_of statements.entry.items
        ++ map rtl.writes (stores_of wires.entry.terms.now (update_of wires.entry.terms.now way.now) (suc way.now.term.0))) }
{
    let parts = way.parts.as_slice();
    let memory = wires.terms.name(way.memory);
    let mut all = statements;
    for place in 0..parts.len() {
        all = with_store(alloc, all, wires, memory, part_at(parts, place))?;
    }
    Ok(all)
}

/// Statements with the stores of some updates behind them.
pub(crate) fn with_all_stores<'n>(
    alloc: Global,
    statements: Vec<Statement<'n>>,
    wires: Wires<'n>,
    ways: &'n [Way],
) -> Result<Vec<Statement<'n>>, NoMemory>
    requires ways { AreAllWays wires.terms.now ways.now }
    requires named { AreNumbered (codes "wb_t") (length wires.terms.now.nodes) wires.names.now }
    ensures { IfOk result (λ v. map statement_of v.items ≡ map statement_of statements.entry.items
        ++ map rtl.writes (all_stores wires.entry.terms.now (map (update_of wires.entry.terms.now) ways.now))) }
{
    let mut all = statements;
    for place in 0..ways.len() {
        all = with_stores(alloc, all, wires, way_at(ways, place))?;
    }
    Ok(all)
}
