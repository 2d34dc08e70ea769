//! Stores of terms as rows write them: `SORT SORT SORT; TERM; TERM ..`. The sorts are those of three names; `bool`, a width, or
//! `ADDRESS_WIDTH:WIDTH` of a memory. Terms are called a, b, c and so on in their order: the first three are the names. A term is an operator
//! with its numbers and the letters of its operands; `like TERM VALUE` is a constant of the term's sort.

ghost use Rattle.std.specs.Prelude.{◌≡◌, ◌<◌, [], ◌∷◌, ◌++◌, None, IfOk, OnOk, IsTrue};
ghost use Rattle.wb_values.specs.Value.{entry_of};
ghost use Rattle.wb_terms.specs.Sort.{as_sort};
ghost use Rattle.wb_terms.specs.Graph.{AllBelow, operands_of, names_of};

use crate::rows::halves;
use std::alloc::Global;
use wb_terms::{Node, PutStop, Sort, TermId, Terms};

/// A number of a row, or one that no width is.
pub fn small(word: &str) -> u32 {
    word.parse::<u32>().unwrap_or(u32::MAX)
}

/// A number of a row, or the greatest.
pub fn large(word: &str) -> u128 {
    word.parse::<u128>().unwrap_or(u128::MAX)
}

/// The sort that a word of a row says.
fn sort_of(word: &str) -> Sort {
    if word == "bool" {
        return Sort::Truth;
    }
    let (first, second) = halves(word, ":");
    if second.is_empty() {
        Sort::Word(small(first))
    } else {
        Sort::Memory(small(first), small(second))
    }
}

/// The term that a letter stands for, or one that there never is.
fn term_of(word: &str) -> TermId {
    match word.as_bytes() {
        [letter] => TermId(usize::from(letter.wrapping_sub(b'a'))),
        _ => TermId(usize::MAX),
    }
}

/// An operator on two terms that gives a word or a truth value of their sort.
fn node_of_two(operator: &str, x: TermId, y: TermId) -> Option<Node> {
    match operator {
        "and" => Some(Node::And(x, y)),
        "or" => Some(Node::Or(x, y)),
        "xor" => Some(Node::Xor(x, y)),
        "add" => Some(Node::Add(x, y)),
        "sub" => Some(Node::Sub(x, y)),
        "mul" => Some(Node::Mul(x, y)),
        "shl" => Some(Node::Shl(x, y)),
        "lshr" => Some(Node::Lshr(x, y)),
        "ashr" => Some(Node::Ashr(x, y)),
        _ => node_of_another(operator, x, y),
    }
}

/// Another operator on two terms.
fn node_of_another(operator: &str, x: TermId, y: TermId) -> Option<Node> {
    match operator {
        "eq" => Some(Node::Eq(x, y)),
        "ult" => Some(Node::Ult(x, y)),
        "ule" => Some(Node::Ule(x, y)),
        "slt" => Some(Node::Slt(x, y)),
        "sle" => Some(Node::Sle(x, y)),
        "concat" => Some(Node::Concat(x, y)),
        "load" => Some(Node::Load(x, y)),
        _ => None,
    }
}

/// The node of a term, where its operator is none of a constant like another term.
fn node_of(text: &str) -> Option<Node> {
    let (operator, rest) = halves(text, " ");
    let (first, rest) = halves(rest, " ");
    let (second, third) = halves(rest, " ");
    let (x, y, z) = (term_of(first), term_of(second), term_of(third));
    match operator {
        "truth" => Some(Node::Truth(first == "true")),
        "const" => Some(Node::Const(small(first), large(second))),
        "not" => Some(Node::Not(x)),
        "neg" => Some(Node::Neg(x)),
        "zext" => Some(Node::Zext(small(first), y)),
        "sext" => Some(Node::Sext(small(first), y)),
        "extract" => Some(Node::Extract(small(first), small(second), z)),
        "ite" => Some(Node::Ite(x, y, z)),
        "store" => Some(Node::Store(x, y, z)),
        _ => node_of_two(operator, x, y),
    }
}

/// A constant of a term's sort: `TERM VALUE`.
fn node_like(terms: &Terms, text: &str) -> Option<Node> {
    let (word, value) = halves(text, " ");
    let id = term_of(word);
    if id.0 as u64 >= terms.len() {
        return None;
    }
    match terms.sort(id) {
        Sort::Truth => Some(Node::Truth(value == "1")),
        Sort::Word(width) => Some(Node::Const(width, large(value))),
        Sort::Memory(_, _) => None,
    }
}

/// Whether the node stands on the first terms, so many, and is no name.
fn is_over(node: Node, count: u64) -> bool
    ensures operands { IsTrue result → AllBelow count (operands_of node) }
    ensures names { IsTrue result → names_of node ≡ [] }
{
    let is_below = |id: TermId| (id.0 as u64) < count;
    match node {
        Node::Name(_) => false,
        Node::Truth(_) | Node::Const(_, _) => true,
        Node::Not(x)
        | Node::Neg(x)
        | Node::Extract(_, _, x)
        | Node::Zext(_, x)
        | Node::Sext(_, x) => is_below(x),
        Node::Ite(x, y, z) | Node::Store(x, y, z) => is_below(x) && is_below(y) && is_below(z),
        Node::And(x, y)
        | Node::Or(x, y)
        | Node::Xor(x, y)
        | Node::Add(x, y)
        | Node::Sub(x, y)
        | Node::Mul(x, y)
        | Node::Shl(x, y)
        | Node::Lshr(x, y)
        | Node::Ashr(x, y)
        | Node::Eq(x, y)
        | Node::Ult(x, y)
        | Node::Ule(x, y)
        | Node::Slt(x, y)
        | Node::Sle(x, y)
        | Node::Concat(x, y)
        | Node::Load(x, y) => is_below(x) && is_below(y),
    }
}

/// Puts a term. Nothing is told where that is done.
fn put(terms: &mut Terms, text: &str) -> &'static str
    ensures { terms.new.names ≡ terms.old.names }
{
    let found = match text.strip_prefix("like ") {
        Some(rest) => node_like(terms, rest),
        None => node_of(text),
    };
    let Some(node) = found else {
        return "is no term";
    };
    let count = terms.len();
    if !is_over(node, count) {
        return "is not over earlier terms";
    }
    match terms.put(node) {
        Ok(_) => "",
        Err(PutStop::BadSort) if terms.len() == count => "refused",
        Err(_) => "no memory",
    }
}

/// Puts the terms of a text, one after the other, up to the first that is not put. Nothing is told where all are.
pub fn fill(terms: &mut Terms, text: &str) -> &'static str
    ensures { terms.new.names ≡ terms.old.names }
{
    for piece in text.split(';') {
        let told = put(terms, piece.trim());
        if !told.is_empty() {
            return told;
        }
    }
    ""
}

/// Declares a name and puts it as a term.
fn add_name(alloc: Global, terms: &mut Terms, name: &str, sort: Sort) -> Result<(), PutStop>
    requires { entry_of terms.old.names name.now ≡ None }
    ensures { OnOk result (terms.new.names ≡ terms.old.names ++ (name.now, as_sort sort) ∷ []) }
{
    let Ok(name) = String::from_str(alloc, name) else {
        return Err(PutStop::NoMemory);
    };
    let id = terms.declare(name, sort)?;
    terms.put(Node::Name(id))?;
    Ok(())
}

/// A store with the names x, #y and z of these sorts, and the terms that are these names.
pub fn named(alloc: Global, x: Sort, y: Sort, z: Sort) -> Result<Terms, PutStop>
    ensures { IfOk result (λ t. t.names ≡ (120 ∷ [], as_sort x) ∷ (35 ∷ 121 ∷ [], as_sort y) ∷ (122 ∷ [], as_sort z) ∷ []) }
{
    let Ok(mut terms) = Terms::new(alloc) else {
        return Err(PutStop::NoMemory);
    };
    add_name(alloc, &mut terms, "x", x)?;
    add_name(alloc, &mut terms, "#y", y)?;
    add_name(alloc, &mut terms, "z", z)?;
    Ok(terms)
}

/// The store of a text, or what is told of it.
pub fn store_of(alloc: Global, text: &str) -> Result<Terms, &'static str> {
    let (sorts, rest) = halves(text, "; ");
    let (x, sorts) = halves(sorts, " ");
    let (y, z) = halves(sorts, " ");
    let Ok(mut terms) = named(alloc, sort_of(x), sort_of(y), sort_of(z)) else {
        return Err("has no names of these sorts");
    };
    let told = fill(&mut terms, rest);
    if told.is_empty() {
        Ok(terms)
    } else {
        Err(told)
    }
}
