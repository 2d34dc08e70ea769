//! Which names stand in a term, and the variables of their bits.

ghost use Rattle.std.specs.Prelude.{◌≡◌, ◌+◌, ◌<◌, length, IfOk, OnOk, None, slice_index_or};
ghost use Rattle.std.specs.List.{All};
ghost use Rattle.std.specs.Ordering.{nat_cmp};
ghost use Rattle.std.specs.BTreeSet as set;
ghost use Rattle.wb_terms.specs.Sort.{as_sort};
ghost use Rattle.wb_terms.specs.Graph.{AllBelow, HasDistinctNames, names_of};
ghost use Rattle.sat_gates.specs.Cone.{IsCone, AreParts, places, with_keys};
ghost use Rattle.sat_gates.specs.Layout.{bit_count, firsts_of, end_of};
ghost use Rattle.sat_gates.specs.Used.{AreUsed, flags_of};

use crate::reach::term_in;
use sat_base::NoMemory;
use std::alloc::Global;
use std::collections::{BTreeMap, BTreeSet};
use std::marker::Model;
use wb_terms::{NameId, Node, Sort, TermId, Terms};

/// The first variables of the bits of declared names, in the order of declaration. A name that does not stand in the term has none.
#[derive(Drop)]
pub struct BitMap {
    /// How many names are declared.
    names: usize,
    /// The first variables, by the places of the names.
    firsts: BTreeMap<usize, u64>,
}

impl Model for BitMap {
    ghost use Rattle.std.specs.Prelude.{List, Option, ℕ};
    ghost use Rattle.std.specs.Ordering.{nat_cmp};
    ghost use Rattle.std.specs.BTreeMap.{get};
    ghost use Rattle.sat_gates.specs.Used.{listed};

    ghost Value = { List (Option ℕ) };

    ghost view = { λ m. listed (get nat_cmp m.firsts) 0 m.names };
}

impl BitMap {
    /// The variable of a name's bit 0, where the name is declared and stands in the term. Bit k has the variable k further.
    pub fn first(&self, name: NameId) -> Option<u64>
        ensures { result ≡ slice_index_or self.now name.0 None }
    {
        if name.0 < self.names {
            return self.firsts.get(&name.0).copied();
        }
        None
    }
}

/// The places of the declared names that stand in a term, by the terms that it stands on.
pub(crate) fn used_names(
    alloc: Global,
    terms: &Terms,
    root: TermId,
    ids: &[TermId],
) -> Result<BTreeSet<usize>, NoMemory>
    requires cone { IsCone terms.now root.0 (places ids.now) }
    requires parts { AreParts terms.now root.0 }
    ensures used { IfOk result (λ used. AreUsed terms.now root.0 (flags_of (set.contains nat_cmp used) terms.now.names)) }
    ensures below { IfOk result (λ used. All (λ j. j < length terms.now.names) used.keys) }
{
    let mut used = BTreeSet::new(alloc);
    for place in 0..ids.len() {
        let id = term_in(ids, place);
        add_name(&mut used, *terms.node(id))?;
    }
    Ok(used)
}

/// Adds the name that a node is.
fn add_name(used: &mut BTreeSet<usize>, node: Node) -> Result<(), NoMemory>
    ensures { OnOk result (used.new.keys ≡ with_keys (names_of node) used.old.keys) }
{
    match node {
        Node::Name(name) => {
            used.insert(name.0)?;
            Ok(())
        }
        _ => Ok(()),
    }
}

/// The first variables of the names' bits, and how many variables these are in all.
#[derive(Drop)]
pub(crate) struct Layout {
    pub map: BitMap,
    pub inputs: u64,
}

/// Gives the bits of the used names the first variables, in the order of declaration.
pub(crate) fn lay_out(
    alloc: Global,
    terms: &Terms,
    mut used: BTreeSet<usize>,
) -> Result<Layout, NoMemory>
    requires below { All (λ j. j < length terms.now.names) used.keys }
    ensures distinct { HasDistinctNames terms.now.names }
    ensures firsts { IfOk result (λ l. l.map ≡ firsts_of 0 terms.now.names (flags_of (set.contains nat_cmp used) terms.now.names)) }
    ensures inputs { IfOk result (λ l. l.inputs ≡ end_of 0 terms.now.names (flags_of (set.contains nat_cmp used) terms.now.names)) }
{
    let names = terms.name_count() as usize;
    let mut firsts = BTreeMap::new(alloc);
    let mut inputs: u64 = 0;
    while let Some(name) = used.pop_first() {
        firsts.insert(name, inputs)?;
        inputs = after_name(inputs, terms.name_sort(NameId(name)))?;
    }
    let map = BitMap { names, firsts };
    Ok(Layout { map, inputs })
}

/// The next variable after those of a name's bits.
fn after_name(first: u64, sort: Sort) -> Result<u64, NoMemory>
    ensures { IfOk result (λ n. n ≡ first + bit_count (as_sort sort)) }
{
    match first.checked_add(bit_count(sort)) {
        Some(next) => Ok(next),
        None => Err(NoMemory),
    }
}

/// How many bits a value of the sort has.
pub(crate) fn bit_count(sort: Sort) -> u64
    ensures { result ≡ bit_count (as_sort sort) }
{
    match sort {
        Sort::Truth => 1,
        Sort::Word(width) => u64::from(width),
        Sort::Memory(_, _) => 0,
    }
}
