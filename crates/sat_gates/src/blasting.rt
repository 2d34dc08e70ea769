//! The bits of terms, node by node.

ghost use Rattle.std.specs.Prelude.{◌≡◌, ◌<◌, ◌^◌, [], ◌∷◌, length, nat_eq, IfOk, IsSome, Some, true};
ghost use Rattle.std.specs.HashMap.{get};
ghost use Rattle.wb_values.specs.Value.{truth};
ghost use Rattle.model_meaning.specs.Term.{sort_of};
ghost use Rattle.wb_terms.specs.Graph.{tree, tree_of_node, operands_of, names_of, AllBelow};
ghost use Rattle.gate_base.specs.Circuit.{Grows};
ghost use Rattle.sat_gates.specs.Names.{is_blastable};
ghost use Rattle.sat_gates.specs.Cone.{IsCone, AreParts, places};
ghost use Rattle.sat_gates.specs.Layout.{variables_of};
ghost use Rattle.sat_gates.specs.Blasting.{AreBitsOf, bits_at, HasBits, HaveBits, HasVariables, AllHaveVariables, IsNegative};
ghost use Rattle.sat_gates.specs.Forms.{form_of};
ghost use Rattle.sat_gates.specs.declared.forms.Form.TheVariants.{Other};
ghost use Rattle.gate_words.specs.Binary.{AreKnown};

use crate::forms::{Form, form_of};
use crate::layout::{BitMap, bit_count};
use crate::reach::term_in;
use gate_base::{Bit, Builder};
use gate_words::{
    Cell, chained, constant, cut, extended, joined, literals, operated, sign_of, signed_at_most,
    signed_below, single, zeros,
};
use sat_base::NoMemory;
use std::alloc::Global;
use std::collections::HashMap;
use wb_terms::{Node, TermId, Terms};

/// The bits of a term that are there.
fn bits_of(bits: &HashMap<usize, Vec<Bit>>, id: TermId) -> &[Bit]
    requires { IsSome (get nat_eq bits.now id.0) }
    ensures { result.now ≡ bits_at (get nat_eq bits.now id.0) }
{
    bits[&id.0].as_slice()
}

/// The bits of the term of a node, over those of its operands.
fn put_node(
    alloc: Global,
    circuit: &mut Builder,
    terms: &Terms,
    root: TermId,
    map: &BitMap,
    bits: &HashMap<usize, Vec<Bit>>,
    node: Node,
) -> Result<Vec<Bit>, NoMemory>
    requires fits { circuit.old.inputs < 2 ^ 64 }
    requires names { AllBelow (length terms.now.names) (names_of node) }
    requires variables { HasVariables terms.now root.0 map.now circuit.old.inputs (names_of node) }
    requires operands { HaveBits terms.now root.0 (variables_of terms.now.names map.now) circuit.old (get nat_eq bits.now) (operands_of node) }
    requires sorted { IsSome (sort_of (tree_of_node terms.now node)) }
    requires blastable { is_blastable (tree_of_node terms.now node) ≡ true }
    ensures grows { Grows circuit.old circuit.new }
    ensures bits { IfOk result (λ r. AreBitsOf (tree terms.now root.0) (variables_of terms.now.names map.now) circuit.new (tree_of_node terms.now node) r.items) }
{
    match form_of(node) {
        Form::Chain(cell, carry, x, y) => {
            let first = bits_of(bits, x);
            let second = bits_of(bits, y);
            let chain = chained(alloc, circuit, cell, Bit::Constant(carry), first, second)?;
            Ok(chain.bits)
        }
        Form::Last(cell, carry, x, y) => {
            let first = bits_of(bits, x);
            let second = bits_of(bits, y);
            let chain = chained(alloc, circuit, cell, Bit::Constant(carry), first, second)?;
            let last = single(alloc, chain.carry)?;
            Ok(last)
        }
        Form::Word(operator, x, y) => {
            let first = bits_of(bits, x);
            let second = bits_of(bits, y);
            let word = operated(alloc, circuit, operator, first, second)?;
            Ok(word)
        }
        Form::SignedBelow(x, y) => {
            let first = bits_of(bits, x);
            let second = bits_of(bits, y);
            let below = signed_below(alloc, circuit, first, second)?;
            let answer = single(alloc, below)?;
            Ok(answer)
        }
        Form::SignedAtMost(x, y) => {
            let first = bits_of(bits, x);
            let second = bits_of(bits, y);
            let at_most = signed_at_most(alloc, circuit, first, second)?;
            let answer = single(alloc, at_most)?;
            Ok(answer)
        }
        Form::Other => put_other(alloc, circuit, terms, root, map, bits, node),
    }
}

/// The bits of a node that is no chain.
fn put_other(
    alloc: Global,
    circuit: &mut Builder,
    terms: &Terms,
    root: TermId,
    map: &BitMap,
    bits: &HashMap<usize, Vec<Bit>>,
    node: Node,
) -> Result<Vec<Bit>, NoMemory>
    requires other { form_of node ≡ Other }
    requires fits { circuit.old.inputs < 2 ^ 64 }
    requires names { AllBelow (length terms.now.names) (names_of node) }
    requires variables { HasVariables terms.now root.0 map.now circuit.old.inputs (names_of node) }
    requires operands { HaveBits terms.now root.0 (variables_of terms.now.names map.now) circuit.old (get nat_eq bits.now) (operands_of node) }
    requires sorted { IsSome (sort_of (tree_of_node terms.now node)) }
    requires blastable { is_blastable (tree_of_node terms.now node) ≡ true }
    ensures grows { Grows circuit.old circuit.new }
    ensures bits { IfOk result (λ r. AreBitsOf (tree terms.now root.0) (variables_of terms.now.names map.now) circuit.new (tree_of_node terms.now node) r.items) }
{
    match node {
        Node::Name(name) => {
            let Some(first) = map.first(name) else {
                unreachable!()
            };
            let count = bit_count(terms.name_sort(name)) as usize;
            let word = literals(alloc, first, count)?;
            Ok(word)
        }
        Node::Truth(truth) => {
            let word = single(alloc, Bit::Constant(truth))?;
            Ok(word)
        }
        Node::Const(width, number) => {
            let word = constant(alloc, width, number)?;
            Ok(word)
        }
        Node::Neg(x) => {
            let operand = bits_of(bits, x);
            let word = negative(alloc, circuit, operand)?;
            Ok(word)
        }
        Node::Ite(condition, x, y) => {
            let chosen = bits_of(bits, condition);
            let first = bits_of(bits, x);
            let second = bits_of(bits, y);
            let chain = chained(alloc, circuit, Cell::Choose, chosen[0], first, second)?;
            Ok(chain.bits)
        }
        Node::Concat(x, y) => {
            let high = bits_of(bits, x);
            let low = bits_of(bits, y);
            let word = joined(alloc, low, high)?;
            Ok(word)
        }
        Node::Extract(high, low, x) => {
            let operand = bits_of(bits, x);
            let word = cut(alloc, operand, low as usize, high as usize + 1)?;
            Ok(word)
        }
        Node::Zext(width, x) => {
            let operand = bits_of(bits, x);
            let count = width as usize - operand.len();
            let word = extended(alloc, operand, count, Bit::Constant(false))?;
            Ok(word)
        }
        Node::Sext(width, x) => {
            let operand = bits_of(bits, x);
            let count = width as usize - operand.len();
            let word = extended(alloc, operand, count, sign_of(operand))?;
            Ok(word)
        }
        _ => unreachable!(),
    }
}

/// A word negated modulo 2^width.
fn negative(alloc: Global, circuit: &mut Builder, xs: &[Bit]) -> Result<Vec<Bit>, NoMemory>
    requires xs { AreKnown circuit.old xs.now }
    ensures grows { Grows circuit.old circuit.new }
    ensures word { IfOk result (λ r. IsNegative circuit.new xs.now r.items) }
{
    let zero = zeros(alloc, xs.len())?;
    let chain = chained(
        alloc,
        circuit,
        Cell::Difference,
        Bit::Constant(true),
        zero.as_slice(),
        xs,
    )?;
    Ok(chain.bits)
}

/// The bits of a term, by those of each term on which it stands.
fn put_all(
    alloc: Global,
    circuit: &mut Builder,
    terms: &Terms,
    root: TermId,
    ids: &[TermId],
    map: &BitMap,
) -> Result<HashMap<usize, Vec<Bit>>, NoMemory>
    requires fits { circuit.old.inputs < 2 ^ 64 }
    requires cone { IsCone terms.now root.0 (places ids.now) }
    requires parts { AreParts terms.now root.0 }
    requires variables { AllHaveVariables terms.now root.0 map.now circuit.old.inputs }
    requires blastable { is_blastable (tree terms.now root.0) ≡ true }
    ensures grows { Grows circuit.old circuit.new }
    ensures bits { IfOk result (λ bits. HasBits terms.now root.0 (variables_of terms.now.names map.now) circuit.new (get nat_eq bits) root.0) }
{
    let mut bits = HashMap::new(alloc);
    for place in 0..ids.len() {
        let id = term_in(ids, place);
        let word = put_node(alloc, circuit, terms, root, map, &bits, *terms.node(id))?;
        bits.insert(id.0, word)?;
    }
    Ok(bits)
}

/// The bit of a term of truth sort.
pub(crate) fn put_term(
    alloc: Global,
    circuit: &mut Builder,
    terms: &Terms,
    root: TermId,
    ids: &[TermId],
    map: &BitMap,
) -> Result<Bit, NoMemory>
    requires fits { circuit.old.inputs < 2 ^ 64 }
    requires cone { IsCone terms.now root.0 (places ids.now) }
    requires parts { AreParts terms.now root.0 }
    requires variables { AllHaveVariables terms.now root.0 map.now circuit.old.inputs }
    requires blastable { is_blastable (tree terms.now root.0) ≡ true }
    requires sort { sort_of (tree terms.now root.0) ≡ Some truth }
    ensures grows { Grows circuit.old circuit.new }
    ensures bit { IfOk result (λ b. AreBitsOf (tree terms.now root.0) (variables_of terms.now.names map.now) circuit.new (tree terms.now root.0) (b ∷ [])) }
{
    let bits = put_all(alloc, circuit, terms, root, ids, map)?;
    let word = bits_of(&bits, root);
    Ok(word[0])
}
