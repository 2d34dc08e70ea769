//! What stands in the new store for the terms of the old one, term by term in ascending order.

ghost use Rattle.std.specs.Prelude.{◌≡◌, ℕ, ◌<◌, ◌≤◌, ◌^◌, ◌+◌, ◌*◌, List, length, nat_eq, Some, IfOk, OnOk, IsSome, IsTrue, slice_get, slice_set, slice_index_or, [], ◌∷◌};
ghost use Rattle.std.specs.HashMap.{get};
ghost use Rattle.wb_values.specs.Value.{word, memory, number, Valuation};
ghost use Rattle.model_meaning.specs.Term.{ite, load, store, is_sort, sort_of, load_sort, val};
ghost use Rattle.wb_terms.specs.Graph.{IsOver, operands_of, leaf_at, tree, tree_of_node};
ghost use Rattle.sat_gates.specs.Cone.{IsCone, AreParts, places};
ghost use Rattle.ob_mem.specs.Words.{entry_at};
ghost use Rattle.ob_mem.specs.declared.rows.Row.TheVariants.{Constants, Matches};
ghost use Rattle.ob_mem.specs.Rows.{Grows, IsRow, tree_in, IsPlain, AreWords, HoldWords};
ghost use Rattle.ob_mem.specs.Images.{Operands, HaveImages, load_parts, const_part, renamed, image_of, AreThere, IsImage, HasImage, HasFirsts, IsNoMemory};
ghost use Rattle.ob_mem.specs.Size.{node_at, load_count, node_count, total_count};

use crate::NoMemory;
use crate::loads::put_load;
use crate::rows::{Row, later, power, put, put_row};
use crate::words::MemoryWord;
use std::alloc::Global;
use std::collections::HashMap;
use wb_terms::{NameId, Node, Sort, TermId, Terms};

/// The node over the images of its operands.
fn renamed(node: Node, images: &HashMap<usize, TermId>) -> Node
    requires { AreThere (get nat_eq images.now) (operands_of node) }
    ensures { result ≡ renamed (get nat_eq images.now) node }
{
    match node {
        Node::Name(name) => Node::Name(name),
        Node::Truth(truth) => Node::Truth(truth),
        Node::Const(width, number) => Node::Const(width, number),
        Node::Not(x) => Node::Not(image(images, x)),
        Node::And(x, y) => Node::And(image(images, x), image(images, y)),
        Node::Or(x, y) => Node::Or(image(images, x), image(images, y)),
        Node::Xor(x, y) => Node::Xor(image(images, x), image(images, y)),
        Node::Neg(x) => Node::Neg(image(images, x)),
        Node::Add(x, y) => Node::Add(image(images, x), image(images, y)),
        Node::Sub(x, y) => Node::Sub(image(images, x), image(images, y)),
        Node::Mul(x, y) => Node::Mul(image(images, x), image(images, y)),
        Node::Shl(x, y) => Node::Shl(image(images, x), image(images, y)),
        Node::Lshr(x, y) => Node::Lshr(image(images, x), image(images, y)),
        Node::Ashr(x, y) => Node::Ashr(image(images, x), image(images, y)),
        Node::Eq(x, y) => Node::Eq(image(images, x), image(images, y)),
        Node::Ult(x, y) => Node::Ult(image(images, x), image(images, y)),
        Node::Ule(x, y) => Node::Ule(image(images, x), image(images, y)),
        Node::Slt(x, y) => Node::Slt(image(images, x), image(images, y)),
        Node::Sle(x, y) => Node::Sle(image(images, x), image(images, y)),
        Node::Concat(x, y) => Node::Concat(image(images, x), image(images, y)),
        Node::Extract(high, low, x) => Node::Extract(high, low, image(images, x)),
        Node::Zext(width, x) => Node::Zext(width, image(images, x)),
        Node::Sext(width, x) => Node::Sext(width, image(images, x)),
        Node::Ite(c, x, y) => Node::Ite(image(images, c), image(images, x), image(images, y)),
        Node::Load(m, i) => Node::Load(image(images, m), image(images, i)),
        Node::Store(m, i, x) => Node::Store(image(images, m), image(images, i), image(images, x)),
    }
}

/// The addresses of so many bits, in a row.
fn put_constants(terms: &mut Terms, width: u32) -> Result<TermId, NoMemory>
    requires some { 1 ≤ width }
    requires narrow { width ≤ 16 }
    ensures id { IfOk result (λ r. r.0 ≡ length terms.old.nodes) }
    ensures row { OnOk result (IsRow terms.old terms.new (tree_in terms.old (Constants width)) (2 ^ width)) }
{
    let id = put_row(terms, Row::Constants(width), power(width))?;
    Ok(id)
}

/// Whether a word is equal to each of a row of 2^width words of its width.
fn put_matches(terms: &mut Terms, x: TermId, first: TermId, width: u32) -> Result<TermId, NoMemory>
    requires narrow { width ≤ 16 }
    requires x { IsPlain terms.old x.0 (word width) }
    requires words { AreWords terms.old first.0 (2 ^ width) width }
    ensures id { IfOk result (λ r. r.0 ≡ length terms.old.nodes) }
    ensures row { OnOk result (IsRow terms.old terms.new (tree_in terms.old (Matches x first)) (2 ^ width)) }
{
    let id = put_row(terms, Row::Matches(x, first), power(width))?;
    Ok(id)
}

/// The words of a memory with one replaced: each is compared by its address.
fn put_store(
    terms: &mut Terms,
    row: TermId,
    address: TermId,
    x: TermId,
    address_width: u32,
) -> Result<TermId, NoMemory>
    requires words { (d : ℕ) × AreWords terms.old row.0 (2 ^ address_width) d × IsPlain terms.old x.0 (word d) }
    requires address { IsPlain terms.old address.0 (word address_width) }
    requires some { 1 ≤ address_width }
    requires narrow { address_width ≤ 16 }
    ensures grows { OnOk result (Grows terms.old terms.new) }
    ensures words { IfOk result (λ r. (d : ℕ) → AreWords terms.old row.0 (2 ^ address_width) d → IsPlain terms.old x.0 (word d)
        → AreWords terms.new r.0 (2 ^ address_width) d) }
    ensures count { OnOk result (length terms.new.nodes ≡ length terms.old.nodes + 3 * 2 ^ address_width) }
    ensures values { IfOk result (λ r. (w : Valuation) (xs : List ℕ) (i y : ℕ) → val (tree terms.old address.0) w ≡ number i
        → val (tree terms.old x.0) w ≡ number y → length xs ≡ 2 ^ address_width
        → HoldWords terms.old w row.0 (2 ^ address_width) xs 0 → HoldWords terms.new w r.0 (2 ^ address_width) (slice_set xs i y) 0) }
{
    let constants = put_constants(terms, address_width)?;
    let matches = put_matches(terms, address, constants, address_width)?;
    let id = put_row(terms, Row::Updates(matches, x, row), power(address_width))?;
    Ok(id)
}

/// The image of an operand.
pub(crate) fn image(images: &HashMap<usize, TermId>, id: TermId) -> TermId
    requires { IsSome (get nat_eq images.now id.0) }
    ensures { result ≡ image_of (get nat_eq images.now) id }
{
    images[&id.0]
}

/// The place of the first word's name of a memory.
fn start(firsts: &[usize], place: usize) -> usize
    requires { place < length firsts.now }
    ensures { slice_index_or firsts.now place 0 ≡ result }
{
    firsts[place]
}

/// The image of a name of a memory: the names of its words.
fn put_leaf(
    terms: &mut Terms,
    old: &Terms,
    list: &[MemoryWord],
    firsts: &[usize],
    name: NameId,
    address_width: u32,
) -> Result<TermId, NoMemory>
    requires name { name.0 < length old.now.names }
    requires sort { (d : ℕ) × ((entry_at old.now.names name.0).1 ≡ memory address_width d) × IsTrue (is_sort (memory address_width d)) }
    requires narrow { address_width ≤ 16 }
    requires firsts { HasFirsts old.now.names terms.old.names list.now firsts.now }
    ensures grows { OnOk result (Grows terms.old terms.new) }
    ensures image { IfOk result (λ r. IsImage old.now.names list.now terms.new r.0 (leaf_at old.now.names name.0)) }
    ensures count { OnOk result (length terms.new.nodes ≡ length terms.old.nodes + 2 ^ address_width) }
{
    let _old = old;
    let _list = list;
    let first = start(firsts, name.0);
    let id = put_row(terms, Row::Names(NameId(first)), power(address_width))?;
    Ok(id)
}

/// The image of a choice of memories.
fn put_choice(
    terms: &mut Terms,
    old: &Terms,
    list: &[MemoryWord],
    images: &HashMap<usize, TermId>,
    parts: (TermId, TermId, TermId),
    address_width: u32,
) -> Result<TermId, NoMemory>
    requires sort { (d : ℕ) × (sort_of (ite (tree old.now parts.0.0) (tree old.now parts.1.0) (tree old.now parts.2.0)) ≡ Some (memory address_width d)) }
    requires narrow { address_width ≤ 16 }
    requires images { Operands old.now.names list.now old.now terms.old (get nat_eq images.now) (parts.0.0 ∷ parts.1.0 ∷ parts.2.0 ∷ []) }
    ensures grows { OnOk result (Grows terms.old terms.new) }
    ensures image { IfOk result (λ r. IsImage old.now.names list.now terms.new r.0 (ite (tree old.now parts.0.0) (tree old.now parts.1.0) (tree old.now parts.2.0))) }
    ensures count { OnOk result (length terms.new.nodes ≡ length terms.old.nodes + 2 ^ address_width) }
{
    let _old = old;
    let _list = list;
    let condition = image(images, parts.0);
    let x = image(images, parts.1);
    let y = image(images, parts.2);
    let id = put_row(terms, Row::Choices(condition, x, y), power(address_width))?;
    Ok(id)
}

/// The image of a memory with a word replaced.
fn put_update(
    terms: &mut Terms,
    old: &Terms,
    list: &[MemoryWord],
    images: &HashMap<usize, TermId>,
    parts: (TermId, TermId, TermId),
    address_width: u32,
) -> Result<TermId, NoMemory>
    requires sort { (d : ℕ) × (sort_of (store (tree old.now parts.0.0) (tree old.now parts.1.0) (tree old.now parts.2.0)) ≡ Some (memory address_width d)) }
    requires some { 1 ≤ address_width }
    requires narrow { address_width ≤ 16 }
    requires images { Operands old.now.names list.now old.now terms.old (get nat_eq images.now) (parts.0.0 ∷ parts.1.0 ∷ parts.2.0 ∷ []) }
    ensures grows { OnOk result (Grows terms.old terms.new) }
    ensures image { IfOk result (λ r. IsImage old.now.names list.now terms.new r.0 (store (tree old.now parts.0.0) (tree old.now parts.1.0) (tree old.now parts.2.0))) }
    ensures count { OnOk result (length terms.new.nodes ≡ length terms.old.nodes + 3 * 2 ^ address_width) }
{
    let _old = old;
    let _list = list;
    let row = image(images, parts.0);
    let address = image(images, parts.1);
    let x = image(images, parts.2);
    let id = put_store(terms, row, address, x, address_width)?;
    Ok(id)
}

/// The image of a memory of 2^a words, where a is the address width.
fn put_memory(
    terms: &mut Terms,
    old: &Terms,
    list: &[MemoryWord],
    firsts: &[usize],
    images: &HashMap<usize, TermId>,
    id: TermId,
    address_width: u32,
) -> Result<TermId, NoMemory>
    requires id { id.0 < length old.now.nodes }
    requires sort { (d : ℕ) × (sort_of (tree old.now id.0) ≡ Some (memory address_width d)) }
    requires some { 1 ≤ address_width }
    requires narrow { address_width ≤ 16 }
    requires firsts { HasFirsts old.now.names terms.old.names list.now firsts.now }
    requires images { HaveImages old.now list.now terms.old (get nat_eq images.now) id.0 }
    ensures grows { OnOk result (Grows terms.old terms.new) }
    ensures image { IfOk result (λ r. IsImage old.now.names list.now terms.new r.0 (tree old.now id.0)) }
    ensures count { OnOk result (length terms.new.nodes ≤ length terms.old.nodes + node_count old.now (node_at old.now id.0)) }
{
    match *old.node(id) {
        Node::Name(name) => {
            let row = put_leaf(terms, old, list, firsts, name, address_width)?;
            Ok(row)
        }
        Node::Ite(c, x, y) => {
            let row = put_choice(terms, old, list, images, (c, x, y), address_width)?;
            Ok(row)
        }
        Node::Store(m, i, x) => {
            let row = put_update(terms, old, list, images, (m, i, x), address_width)?;
            Ok(row)
        }
        _ => unreachable!(),
    }
}

/// The memory and the address of a load.
fn load_parts(node: Node) -> Option<(TermId, TermId)>
    ensures { result ≡ load_parts node }
{
    match node {
        Node::Load(memory, address) => Some((memory, address)),
        _ => None,
    }
}

/// The number of a constant word.
fn const_part(node: Node) -> Option<u128>
    ensures { result ≡ const_part node }
{
    match node {
        Node::Const(_, number) => Some(number),
        _ => None,
    }
}

/// The image of a load. A constant address picks its word.
fn put_word(
    terms: &mut Terms,
    old: &Terms,
    list: &[MemoryWord],
    images: &HashMap<usize, TermId>,
    memory: TermId,
    address: TermId,
) -> Result<TermId, NoMemory>
    requires memory { memory.0 < length old.now.nodes }
    requires address { address.0 < length old.now.nodes }
    requires sorted { IsSome (load_sort (sort_of (tree old.now memory.0)) (sort_of (tree old.now address.0))) }
    requires there { IsSome (get nat_eq images.now memory.0) }
    requires address_there { IsSome (get nat_eq images.now address.0) }
    requires image { IsImage old.now.names list.now terms.old (image_of (get nat_eq images.now) memory).0 (tree old.now memory.0) }
    requires image_of_address { IsImage old.now.names list.now terms.old (image_of (get nat_eq images.now) address).0 (tree old.now address.0) }
    ensures grows { OnOk result (Grows terms.old terms.new) }
    ensures image { IfOk result (λ r. IsImage old.now.names list.now terms.new r.0 (load (tree old.now memory.0) (tree old.now address.0))) }
    ensures count { OnOk result (length terms.new.nodes ≤ length terms.old.nodes + load_count (const_part (node_at old.now address.0)) (sort_of (tree old.now address.0))) }
{
    let _list = list;
    let row = image(images, memory);
    match const_part(*old.node(address)) {
        Some(place) => Ok(later(terms, row, place as usize)),
        None => {
            let width = word_width(old, address);
            let place = image(images, address);
            let id = put_load(terms, row, place, width)?;
            Ok(id)
        }
    }
}

/// The width of a term that is an address: 1 to 16.
fn word_width(terms: &Terms, id: TermId) -> u32
    requires id { id.0 < length terms.now.nodes }
    requires is_word { (a : ℕ) × (sort_of (tree terms.now id.0) ≡ Some (word a)) }
    ensures { sort_of (tree terms.now id.0) ≡ Some (word result) }
{
    match terms.sort(id) {
        Sort::Word(width) => width,
        _ => unreachable!(),
    }
}

/// The node of a term.
fn node_of(terms: &Terms, id: TermId) -> Node
    requires { id.0 < length terms.now.nodes }
    ensures put { slice_get terms.now.nodes id.0 ≡ Some result }
    ensures tree { tree terms.now id.0 ≡ tree_of_node terms.now result }
    ensures over { IsOver terms.now id.0 result }
    ensures sorted { IsSome (sort_of (tree terms.now id.0)) }
{
    *terms.node(id)
}

/// The image of a truth value or a word.
fn put_value(
    terms: &mut Terms,
    old: &Terms,
    list: &[MemoryWord],
    firsts: &[usize],
    images: &HashMap<usize, TermId>,
    id: TermId,
) -> Result<TermId, NoMemory>
    requires id { id.0 < length old.now.nodes }
    requires sort { IsNoMemory (sort_of (tree old.now id.0)) }
    requires firsts { HasFirsts old.now.names terms.old.names list.now firsts.now }
    requires images { HaveImages old.now list.now terms.old (get nat_eq images.now) id.0 }
    ensures grows { OnOk result (Grows terms.old terms.new) }
    ensures image { IfOk result (λ r. IsImage old.now.names list.now terms.new r.0 (tree old.now id.0)) }
    ensures count { OnOk result (length terms.new.nodes ≤ length terms.old.nodes + node_count old.now (node_at old.now id.0)) }
{
    let _firsts = firsts;
    let node = node_of(old, id);
    match load_parts(node) {
        Some((memory, address)) => {
            let word = put_word(terms, old, list, images, memory, address)?;
            Ok(word)
        }
        None => {
            let value = put(terms, renamed(node, images))?;
            Ok(value)
        }
    }
}

/// The image of a term, by those of the earlier terms.
fn put_image(
    terms: &mut Terms,
    old: &Terms,
    list: &[MemoryWord],
    firsts: &[usize],
    images: &HashMap<usize, TermId>,
    id: TermId,
) -> Result<TermId, NoMemory>
    requires id { id.0 < length old.now.nodes }
    requires firsts { HasFirsts old.now.names terms.old.names list.now firsts.now }
    requires images { HaveImages old.now list.now terms.old (get nat_eq images.now) id.0 }
    ensures grows { OnOk result (Grows terms.old terms.new) }
    ensures image { IfOk result (λ r. IsImage old.now.names list.now terms.new r.0 (tree old.now id.0)) }
    ensures count { OnOk result (length terms.new.nodes ≤ length terms.old.nodes + node_count old.now (node_at old.now id.0)) }
{
    match old.sort(id) {
        Sort::Memory(address_width, _) => {
            let row = put_memory(terms, old, list, firsts, images, id, address_width)?;
            Ok(row)
        }
        Sort::Truth => {
            let value = put_value(terms, old, list, firsts, images, id)?;
            Ok(value)
        }
        Sort::Word(_) => {
            let value = put_value(terms, old, list, firsts, images, id)?;
            Ok(value)
        }
    }
}

/// The term at a place of a list.
fn term_in(ids: &[TermId], place: usize) -> TermId
    requires { place < length ids.now }
    ensures { result ≡ slice_index_or ids.now place result }
{
    ids[place]
}

/// The image of a term, by those of the terms on which it stands, by ascending id. No other term is looked at.
pub(crate) fn put_images(
    alloc: Global,
    terms: &mut Terms,
    old: &Terms,
    list: &[MemoryWord],
    firsts: &[usize],
    ids: &[TermId],
    root: TermId,
) -> Result<HashMap<usize, TermId>, NoMemory>
    requires firsts { HasFirsts old.now.names terms.old.names list.now firsts.now }
    requires cone { IsCone old.now root.0 (places ids.now) }
    requires parts { AreParts old.now root.0 }
    ensures names { OnOk result (terms.new.names ≡ terms.old.names) }
    ensures image { IfOk result (λ images. HasImage old.now.names list.now old.now terms.new (get nat_eq images) root.0) }
    ensures count { OnOk result (length terms.new.nodes ≤ length terms.old.nodes + total_count old.now (places ids.now)) }
{
    let _root = root;
    let mut images = HashMap::new(alloc);
    for place in 0..ids.len() {
        let id = term_in(ids, place);
        let _node = node_of(old, id);
        let image = put_image(terms, old, list, firsts, &images, id)?;
        images.insert(id.0, image)?;
    }
    Ok(images)
}
