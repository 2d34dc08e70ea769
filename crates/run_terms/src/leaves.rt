//! The terms that stand in place of a design's names at a cycle.

ghost use Rattle.std.specs.Prelude.{◌≡◌, ◌+◌, ◌<◌, ◌≤◌, ◌++◌, length, map, IfOk};
ghost use Rattle.wb_values.specs.Value.{number};
ghost use Rattle.term_copies.specs.Copies.{IsExtended, copy_of, declared_at};
ghost use Rattle.v_design.specs.Seen.{parts_of};
ghost use Rattle.v_design.specs.Parts.{inputs_of};
ghost use Rattle.mapped_designs.specs.Runs.{zero_inputs};
ghost use Rattle.run_terms.specs.Names.{first_input};
ghost use Rattle.run_terms.specs.Worth.{IsWorth, AreWorth};
ghost use Rattle.run_terms.specs.Leaves.{IsName, AreNames, AreBelow};

use crate::NoMemory;
use crate::nodes::put;
use std::alloc::Global;
use v_design::Design;
use wb_terms::{NameId, Node, Sort, TermId, Terms};

/// Puts a name as a term.
fn put_name(terms: &mut Terms, name: NameId) -> Result<TermId, NoMemory>
    requires { name.0 < length terms.old.names }
    ensures extended { IsExtended terms.old terms.new }
    ensures name { IfOk result (λ r. IsName terms.new name.0 r.0) }
{
    let _sort = terms.name_sort(name);
    put(terms, Node::Name(name))
}

/// Puts so many names from the first one on.
pub(crate) fn put_names(
    alloc: Global,
    terms: &mut Terms,
    first: usize,
    count: usize,
) -> Result<Vec<TermId>, NoMemory>
    requires { first + count ≤ length terms.old.names }
    ensures extended { IsExtended terms.old terms.new }
    ensures names { IfOk result (λ ids. AreNames terms.new first count ids.items) }
{
    let _names = terms.name_count();
    let mut ids = Vec::new(alloc);
    for place in 0..count {
        ids.push(put_name(terms, NameId(first + place))?)?;
    }
    Ok(ids)
}

/// Puts the zero of an input's sort.
fn put_zero(terms: &mut Terms, design: &Design, name: NameId) -> Result<TermId, NoMemory>
    requires from { design.now.register_count ≤ name.0 }
    requires below { name.0 < length design.now.terms.names }
    ensures extended { IsExtended terms.old terms.new }
    ensures zero { IfOk result (λ r. IsWorth terms.new r.0 (declared_at design.now.terms.names name.0).1 (λ v. number 0)) }
{
    match design.terms.name_sort(name) {
        Sort::Word(width) => put(terms, Node::Const(width, 0)),
        _ => unreachable!(),
    }
}

/// Puts a zero for each input.
pub(crate) fn put_zeros(
    alloc: Global,
    terms: &mut Terms,
    design: &Design,
) -> Result<Vec<TermId>, NoMemory>
    ensures extended { IsExtended terms.old terms.new }
    ensures zeros { IfOk result (λ ids. AreWorth terms.new (inputs_of (parts_of design.now)) ids.items (λ v. zero_inputs (parts_of design.now))) }
{
    let mut ids = Vec::new(alloc);
    for place in design.register_count()..design.terms.name_count() as usize {
        ids.push(put_zero(terms, design, NameId(place))?)?;
    }
    Ok(ids)
}

/// One list after another.
pub(crate) fn joined(
    alloc: Global,
    front: &[TermId],
    back: &[TermId],
) -> Result<Vec<TermId>, NoMemory>
    ensures { IfOk result (λ ids. ids.items ≡ front.now ++ back.now) }
{
    let mut ids = Vec::new(alloc);
    for id in front {
        ids.push(*id)?;
    }
    for id in back {
        ids.push(*id)?;
    }
    Ok(ids)
}

/// The copies of some terms.
pub(crate) fn copies_of(
    alloc: Global,
    copies: &[TermId],
    ids: &[TermId],
) -> Result<Vec<TermId>, NoMemory>
    requires { AreBelow (length copies.now) ids.now }
    ensures { IfOk result (λ found. found.items ≡ map (copy_of copies.now) ids.now) }
{
    let mut found = Vec::new(alloc);
    for id in ids {
        found.push(copies[id.0])?;
    }
    Ok(found)
}

/// Puts the names of the inputs at a cycle.
pub(crate) fn put_inputs(
    alloc: Global,
    terms: &mut Terms,
    design: &Design,
    cycle: u64,
) -> Result<Vec<TermId>, NoMemory>
    requires { first_input (parts_of design.now) cycle + length (inputs_of (parts_of design.now)) ≤ length terms.old.names }
    ensures extended { IsExtended terms.old terms.new }
    ensures names { IfOk result (λ ids. AreNames terms.new (first_input (parts_of design.now) cycle) (length (inputs_of (parts_of design.now))) ids.items) }
{
    let _names = terms.name_count();
    let count = design.input_count();
    let first = design.register_count() + cycle as usize * count;
    put_names(alloc, terms, first, count)
}
