//! The wires that say which instruction decodes, and where one starts.

ghost use Rattle.std.specs.Prelude.{◌≡◌, ◌<◌, ◌++◌, ◌∷◌, [], suc, codes, length, map, IfOk};
ghost use Rattle.wb_values.specs.Value.{truth};
ghost use Rattle.verilog_trees.specs.Syntax as pure;
ghost use Rattle.verilog_meaning.specs.Settled.{whole_name};
ghost use Rattle.v_syntax.specs.Tree.{tree_of};
ghost use Rattle.v_syntax.specs.Source.{item_of};
ghost use Rattle.wanted_terms.specs.Wanted.{AreBelow};
ghost use Rattle.emitted_designs.specs.Names.{go_name};
ghost use Rattle.emitted_modules.specs.Rtl as rtl;
ghost use Rattle.emitted_modules.specs.Nodes.{operand};
ghost use Rattle.emitted_modules.specs.Module.{none_wire, one_wire, decode_wires};
ghost use Rattle.emitted_trees.specs.Items.{wire_named, operands_in};
ghost use Rattle.emitted_names.specs.Named.{AreNumbered, AreDecodingNames};

use crate::NoMemory;
use crate::expressions::{both, conditional, prefixed, sized, whole};
use crate::items::{net, with_item};
use crate::nodes::{Wires, operand};
use emitted_names::{id_at, name_at};
use std::alloc::Global;
use v_expr::ExpressionStop;
use v_syntax::module::Item;
use v_syntax::tree::{Expression, PrefixOperator};
use wb_terms::{Sort, TermId};

/// The names of the wires that say of the last so many instructions whether none decodes, and whether exactly one does.
#[derive(Clone, Copy)]
pub(crate) struct DecodingNames<'n> {
    pub(crate) nones: &'n [String],
    pub(crate) ones: &'n [String],
}

/// Items with a wire of one bit behind them.
pub(crate) fn with_bit<'n>(
    alloc: Global,
    items: Vec<Item<'n>>,
    name: &'n str,
    value: Expression<'n>,
) -> Result<Vec<Item<'n>>, NoMemory>
    ensures { IfOk result (λ v. map item_of v.items ≡ map item_of items.entry.items ++ wire_named name.now truth (tree_of value.entry) ∷ []) }
{
    let item = net(alloc, name, Sort::Truth, value)?;
    let items = with_item(items, item)?;
    Ok(items)
}

/// Items with a wire behind them that says that this instruction does not decode, nor any of those after it.
fn with_none<'n>(
    alloc: Global,
    items: Vec<Item<'n>>,
    name: &'n str,
    decode: Expression<'n>,
    none: &'n str,
) -> Result<Vec<Item<'n>>, ExpressionStop>
    ensures { IfOk result (λ v. map item_of v.items ≡ map item_of items.entry.items ++ wire_named name.now truth (pure.binary pure.bitwise_and (pure.unary pure.complement (tree_of decode.entry)) (whole_name none.now)) ∷ []) }
{
    let not = prefixed(alloc, PrefixOperator::Complement, decode)?;
    let value = both(alloc, not, whole(none))?;
    let items = with_bit(alloc, items, name, value)?;
    Ok(items)
}

/// Items with a wire behind them that says that exactly one of this instruction and those after it decodes.
fn with_one<'n>(
    alloc: Global,
    items: Vec<Item<'n>>,
    name: &'n str,
    decode: Expression<'n>,
    none: &'n str,
    one: &'n str,
) -> Result<Vec<Item<'n>>, ExpressionStop>
    ensures { IfOk result (λ v. map item_of v.items ≡ map item_of items.entry.items ++ wire_named name.now truth (pure.conditional (tree_of decode.entry) (whole_name none.now) (whole_name one.now)) ∷ []) }
{
    let value = conditional(alloc, decode, whole(none), whole(one))?;
    let items = with_bit(alloc, items, name, value)?;
    Ok(items)
}

/// Items with the wires behind them that say which of no instructions decode.
fn with_first<'n>(
    alloc: Global,
    items: Vec<Item<'n>>,
    names: DecodingNames<'n>,
) -> Result<Vec<Item<'n>>, NoMemory>
    requires none { 0 < length names.nones.now }
    requires one { 0 < length names.ones.now }
    requires named { AreDecodingNames names.nones.now names.ones.now }
    ensures { IfOk result (λ v. map item_of v.items ≡ map item_of items.entry.items ++ map rtl.wire_item (decode_wires [])) }
{
    let items = with_bit(alloc, items, name_at(names.nones, 0), sized(1, 1))?;
    let items = with_bit(alloc, items, name_at(names.ones, 0), sized(1, 0))?;
    Ok(items)
}

/// Items with the two wires for an instruction behind them, after which so many stand.
fn with_decode<'n>(
    alloc: Global,
    items: Vec<Item<'n>>,
    wires: Wires<'n>,
    names: DecodingNames<'n>,
    decode: TermId,
    after: usize,
) -> Result<Vec<Item<'n>>, ExpressionStop>
    requires decode { decode.0 < length wires.terms.now.nodes }
    requires named { AreNumbered (codes "wb_t") (length wires.terms.now.nodes) wires.names.now }
    requires none { suc after < length names.nones.now }
    requires one { suc after < length names.ones.now }
    requires decoding { AreDecodingNames names.nones.now names.ones.now }
    ensures { IfOk result (λ v. map item_of v.items ≡ map item_of items.entry.items
        ++ rtl.wire_item (none_wire (operand wires.entry.terms.now decode.0) after) ∷ rtl.wire_item (one_wire (operand wires.entry.terms.now decode.0) after) ∷ []) }
{
    let none = name_at(names.nones, after);
    let one = name_at(names.ones, after);
    let name = name_at(names.nones, after + 1);
    let items = with_none(alloc, items, name, operand(wires, decode), none)?;
    let name = name_at(names.ones, after + 1);
    let items = with_one(alloc, items, name, operand(wires, decode), none, one)?;
    Ok(items)
}

/// Items with the wires behind them that say which instruction decodes, from the last instruction to the first.
pub(crate) fn with_decodes<'n>(
    alloc: Global,
    items: Vec<Item<'n>>,
    wires: Wires<'n>,
    names: DecodingNames<'n>,
    decodes: &[TermId],
) -> Result<Vec<Item<'n>>, ExpressionStop>
    requires below { AreBelow (length wires.terms.now.nodes) decodes.now }
    requires named { AreNumbered (codes "wb_t") (length wires.terms.now.nodes) wires.names.now }
    requires none { length names.nones.now ≡ suc (length decodes.now) }
    requires one { length names.ones.now ≡ suc (length decodes.now) }
    requires decoding { AreDecodingNames names.nones.now names.ones.now }
    ensures { IfOk result (λ v. map item_of v.items ≡ map item_of items.entry.items ++ map rtl.wire_item (decode_wires (operands_in wires.entry.terms.now decodes.now))) }
{
    let mut all = with_first(alloc, items, names)?;
    for after in 0..decodes.len() {
        let decode = id_at(decodes, decodes.len() - 1 - after);
        all = with_decode(alloc, all, wires, names, decode, after)?;
    }
    Ok(all)
}

/// Where `wb_go` starts something: the valid condition holds, and exactly one instruction decodes.
pub(crate) fn ready<'n>(
    alloc: Global,
    wires: Wires<'n>,
    valid: TermId,
    one: &'n str,
) -> Result<Expression<'n>, ExpressionStop>
    requires valid { valid.0 < length wires.terms.now.nodes }
    requires named { AreNumbered (codes "wb_t") (length wires.terms.now.nodes) wires.names.now }
    ensures { IfOk result (λ e. tree_of e ≡ pure.binary pure.bitwise_and (whole_name go_name) (pure.binary pure.bitwise_and (operand wires.entry.terms.now valid.0) (whole_name one.now))) }
{
    let inner = both(alloc, operand(wires, valid), whole(one))?;
    let made = both(alloc, whole("wb_go"), inner)?;
    Ok(made)
}
