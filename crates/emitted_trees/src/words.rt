//! The wires of terms, and those for the words of memories at the addresses of loads.

ghost use Rattle.std.specs.Prelude.{◌≡◌, ◌<◌, ◌++◌, ◌∷◌, [], codes, length, map, slice_get, true, Some, IfOk, ℕ, Bool};
ghost use Rattle.std.specs.String.{string_bytes};
ghost use Rattle.wb_terms.specs.Graph.{Graph, AllBelow, operands_of};
ghost use Rattle.wb_terms.specs.declared.nodes.Node.TheVariants.{Load};
ghost use Rattle.v_syntax.specs.Tree.{tree_of};
ghost use Rattle.v_syntax.specs.Source.{item_of};
ghost use Rattle.wanted_terms.specs.Wanted.{AreBelow};
ghost use Rattle.emitted_modules.specs.Rtl as rtl;
ghost use Rattle.emitted_modules.specs.Nodes.{node_at, operand, memories_of, word_name, word_of_node, word_wire, words_for, wire_for};
ghost use Rattle.emitted_modules.specs.Kept.{IsOrdered};
ghost use Rattle.emitted_names.specs.Ids.{ids_of, kept_by, AreAllKept};
ghost use Rattle.emitted_names.specs.Named.{AreNumbered};
ghost use Rattle.emitted_names.specs.Parts.{AreWordNames, AreWords};
ghost use Rattle.emitted_trees.specs.Words.{all_at, HaveWords, wires_at};

use crate::expressions::sized;
use crate::items::{net, with_item};
use crate::nodes::{
    Wires, chosen_word, expression_of, is_changed, stored_word, wire_name, word_of,
};
use emitted_names::{PartName, id_at, node_of};
use std::alloc::Global;
use v_expr::ExpressionStop;
use v_syntax::module::Item;
use v_syntax::tree::Expression;
use wb_terms::{Node, TermId};

/// The word of a node at the address of a load, over the words of the memories that the node is made of.
fn word_of_node<'n>(
    alloc: Global,
    wires: Wires<'n>,
    row: &'n [PartName],
    load: TermId,
    address: TermId,
    node: Node,
) -> Result<Expression<'n>, ExpressionStop>
    requires address { address.0 < length wires.terms.now.nodes }
    requires operands { AllBelow (length wires.terms.now.nodes) (operands_of node) }
    requires named { AreNumbered (codes "wb_t") (length wires.terms.now.nodes) wires.names.now }
    requires row { AreWordNames wires.terms.now load.0 row.now }
    requires there { HaveWords wires.terms.now row.now (memories_of node) }
    ensures { IfOk result (λ e. tree_of e ≡ word_of_node wires.entry.terms.now load.0 (operand wires.entry.terms.now address.0) node) }
{
    match node {
        Node::Store(inner, at, value) => {
            let rest = word_of(alloc, wires, row, load, address, inner)?;
            let made = stored_word(alloc, rest, wires, address, at, value)?;
            Ok(made)
        }
        Node::Ite(condition, x, y) => {
            let first = word_of(alloc, wires, row, load, address, x)?;
            let second = word_of(alloc, wires, row, load, address, y)?;
            let made = chosen_word(alloc, first, second, wires, condition)?;
            Ok(made)
        }
        _ => Ok(sized(1, 0)),
    }
}

/// The wire for the word of a node at the address of a load.
fn word_wire<'n>(
    alloc: Global,
    wires: Wires<'n>,
    row: &'n [PartName],
    load: TermId,
    address: TermId,
    part: &'n PartName,
) -> Result<Item<'n>, ExpressionStop>
    requires load { load.0 < length wires.terms.now.nodes }
    requires address { address.0 < length wires.terms.now.nodes }
    requires part { part.now.id.0 < length wires.terms.now.nodes }
    requires named { AreNumbered (codes "wb_t") (length wires.terms.now.nodes) wires.names.now }
    requires row { AreWordNames wires.terms.now load.0 row.now }
    requires there { HaveWords wires.terms.now row.now (memories_of (node_at wires.terms.now part.now.id.0)) }
    requires name { string_bytes part.now.name ≡ word_name load.0 part.now.id.0 }
    ensures { IfOk result (λ i. item_of i ≡ rtl.wire_item (word_wire wires.entry.terms.now load.0 (operand wires.entry.terms.now address.0) part.now.id.0)) }
{
    let node = node_of(wires.terms, part.id);
    let value = word_of_node(alloc, wires, row, load, address, node)?;
    let item = net(alloc, part.name.as_str(), wires.terms.sort(load), value)?;
    Ok(item)
}

/// Items with the wire for the word of a node behind them, if the node has one.
fn with_word<'n>(
    alloc: Global,
    items: Vec<Item<'n>>,
    wires: Wires<'n>,
    row: &'n [PartName],
    load: TermId,
    address: TermId,
    part: &'n PartName,
) -> Result<Vec<Item<'n>>, ExpressionStop>
    requires load { load.0 < length wires.terms.now.nodes }
    requires address { address.0 < length wires.terms.now.nodes }
    requires part { part.now.id.0 < length wires.terms.now.nodes }
    requires named { AreNumbered (codes "wb_t") (length wires.terms.now.nodes) wires.names.now }
    requires row { AreWordNames wires.terms.now load.0 row.now }
    requires there { HaveWords wires.terms.now row.now (memories_of (node_at wires.terms.now part.now.id.0)) }
    requires name { string_bytes part.now.name ≡ word_name load.0 part.now.id.0 }
    ensures { IfOk result (λ v. map item_of v.items ≡ map item_of items.entry.items
        ++ wires_at wires.entry.terms.now (word_wire wires.entry.terms.now load.0 (operand wires.entry.terms.now address.0)) part.now.id.0) }
{
    if !is_changed(node_of(wires.terms, part.id)) {
        return Ok(items);
    }
    let item = word_wire(alloc, wires, row, load, address, part)?;
    let all = with_item(items, item)?;
    Ok(all)
}

/// The part at a place of a list.
pub(crate) fn part_at<'n>(parts: &'n [PartName], place: usize) -> &'n PartName
    requires { place < length parts.now }
    ensures { slice_get parts.now place ≡ Some result.now }
{
    &parts[place]
}

/// Items with the wires behind them for the words of the memory of a load.
fn with_words<'n>(
    alloc: Global,
    items: Vec<Item<'n>>,
    wires: Wires<'n>,
    row: &'n [PartName],
    load: TermId,
    memory: TermId,
    address: TermId,
) -> Result<Vec<Item<'n>>, ExpressionStop>
    requires ordered { IsOrdered wires.terms.now }
    requires load { load.0 < length wires.terms.now.nodes }
    requires is { node_at wires.terms.now load.0 ≡ Load memory address }
    requires named { AreNumbered (codes "wb_t") (length wires.terms.now.nodes) wires.names.now }
    requires row { AreWordNames wires.terms.now load.0 row.now }
    ensures { IfOk result (λ v. map item_of v.items ≡ map item_of items.entry.items
        ++ map rtl.wire_item (words_for wires.entry.terms.now load.0 (Load memory address))) }
{
    let _memory = memory;
    let mut all = items;
    for place in 0..row.len() {
        all = with_word(alloc, all, wires, row, load, address, part_at(row, place))?;
    }
    Ok(all)
}

/// Items with the wires behind them for the words that a term reads, if it is a load.
fn with_words_if<'n>(
    alloc: Global,
    items: Vec<Item<'n>>,
    wires: Wires<'n>,
    row: &'n [PartName],
    id: TermId,
) -> Result<Vec<Item<'n>>, ExpressionStop>
    requires ordered { IsOrdered wires.terms.now }
    requires id { id.0 < length wires.terms.now.nodes }
    requires named { AreNumbered (codes "wb_t") (length wires.terms.now.nodes) wires.names.now }
    requires row { AreWordNames wires.terms.now id.0 row.now }
    ensures { IfOk result (λ v. map item_of v.items ≡ map item_of items.entry.items
        ++ map rtl.wire_item (words_for wires.entry.terms.now id.0 (node_at wires.entry.terms.now id.0))) }
{
    match node_of(wires.terms, id) {
        Node::Load(memory, address) => {
            let all = with_words(alloc, items, wires, row, id, memory, address)?;
            Ok(all)
        }
        _ => Ok(items),
    }
}

/// The wire of a term.
fn node_wire<'n>(
    alloc: Global,
    wires: Wires<'n>,
    row: &'n [PartName],
    id: TermId,
) -> Result<Item<'n>, ExpressionStop>
    requires ordered { IsOrdered wires.terms.now }
    requires id { id.0 < length wires.terms.now.nodes }
    requires named { AreNumbered (codes "wb_t") (length wires.terms.now.nodes) wires.names.now }
    requires row { AreWordNames wires.terms.now id.0 row.now }
    ensures { IfOk result (λ i. item_of i ≡ rtl.wire_item (wire_for wires.entry.terms.now id.0 (node_at wires.entry.terms.now id.0))) }
{
    let value = expression_of(alloc, wires, row, id, node_of(wires.terms, id))?;
    let item = net(alloc, wire_name(wires, id), wires.terms.sort(id), value)?;
    Ok(item)
}

/// Items with the wire of a term behind them, and before it those for the words that the term reads.
fn with_node<'n>(
    alloc: Global,
    items: Vec<Item<'n>>,
    wires: Wires<'n>,
    row: &'n [PartName],
    id: TermId,
) -> Result<Vec<Item<'n>>, ExpressionStop>
    requires ordered { IsOrdered wires.terms.now }
    requires id { id.0 < length wires.terms.now.nodes }
    requires named { AreNumbered (codes "wb_t") (length wires.terms.now.nodes) wires.names.now }
    requires row { AreWordNames wires.terms.now id.0 row.now }
    ensures { IfOk result (λ v. map item_of v.items ≡ map item_of items.entry.items
        ++ map rtl.wire_item (words_for wires.entry.terms.now id.0 (node_at wires.entry.terms.now id.0)
        ++ wire_for wires.entry.terms.now id.0 (node_at wires.entry.terms.now id.0) ∷ [])) }
{
    let before = with_words_if(alloc, items, wires, row, id)?;
    let item = node_wire(alloc, wires, row, id)?;
    let all = with_item(before, item)?;
    Ok(all)
}

/// The parts of a memory that a term reads.
fn row_at<'n>(words: &'n [Vec<PartName>], id: TermId) -> &'n [PartName]
    requires { id.0 < length words.now }
    ensures { (g : Graph) (keep : ℕ → Bool) (n : ℕ) → AreWords g keep n words.now → id.0 < n → keep id.0 ≡ true → AreWordNames g id.0 result.now }
{
    let place = id.0;
    words[place].as_slice()
}

/// Items with the wires of some terms behind them.
pub(crate) fn with_nodes<'n>(
    alloc: Global,
    items: Vec<Item<'n>>,
    wires: Wires<'n>,
    words: &'n [Vec<PartName>],
    keep: &[bool],
    ids: &[TermId],
) -> Result<Vec<Item<'n>>, ExpressionStop>
    requires ordered { IsOrdered wires.terms.now }
    requires below { AreBelow (length wires.terms.now.nodes) ids.now }
    requires kept { AreAllKept (kept_by keep.now) ids.now }
    requires named { AreNumbered (codes "wb_t") (length wires.terms.now.nodes) wires.names.now }
    requires words { AreWords wires.terms.now (kept_by keep.now) (length wires.terms.now.nodes) words.now }
    ensures { IfOk result (λ v. map item_of v.items ≡ map item_of items.entry.items
        ++ all_at (λ k. map rtl.wire_item (words_for wires.entry.terms.now k (node_at wires.entry.terms.now k)
        ++ wire_for wires.entry.terms.now k (node_at wires.entry.terms.now k) ∷ [])) (ids_of ids.now)) }
{
    let _keep = keep;
    let mut all = items;
    for place in 0..ids.len() {
        let id = id_at(ids, place);
        all = with_node(alloc, all, wires, row_at(words, id), id)?;
    }
    Ok(all)
}
