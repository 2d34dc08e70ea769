//! The names and sorts of a design's inputs, and tables of the places of names.

ghost use Rattle.std.specs.Prelude.{◌≡◌, ◌<◌, List, ℕ, IfOk, IfSome, IsTrue, length};
ghost use Rattle.model_meaning.specs.Term.{is_sort};
ghost use Rattle.wb_terms.specs.Sort.{as_sort};
ghost use Rattle.v_design.specs.Parts.{registers_of, inputs_of};
ghost use Rattle.v_design.specs.Seen.{parts_of};
ghost use Rattle.trace_texts.specs.Order.{input_name};
ghost use Rattle.trace_reading.specs.Fitting.{input_sort, place_in};
ghost use Rattle.trace_reading.specs.Tables.{place_under};

use crate::names::NamedDesign;
use std::alloc::Global;
use std::collections::BTreeMap;
use v_design::Design;
use wb_terms::{NameId, NoMemory, Sort};

/// The name of an input, by its place among them.
pub(crate) fn input_name(design: &Design, place: usize) -> &str
    requires { place < length (inputs_of (parts_of design.now)) }
    ensures { result.now ≡ input_name (parts_of design.now) place }
{
    // The inputs are the last of the names.
    let first = design.terms.name_count() as usize - design.input_count();
    design.terms.name(NameId(first + place))
}

/// The sort of an input, by its place among them.
pub(crate) fn input_sort(design: &Design, place: usize) -> Sort
    requires { place < length (inputs_of (parts_of design.now)) }
    ensures sort { as_sort result ≡ input_sort (parts_of design.now) place }
    ensures in_range { IsTrue (is_sort (as_sort result)) }
{
    let first = design.terms.name_count() as usize - design.input_count();
    design.terms.name_sort(NameId(first + place))
}

fn register_table<'a>(
    alloc: Global,
    design: &'a Design,
) -> Result<BTreeMap<&'a str, usize>, NoMemory>
    ensures { IfOk result (λ t. (n : List ℕ) → place_under t n ≡ place_in (registers_of (parts_of design.now)) n) }
{
    let mut table = BTreeMap::new(alloc);
    for place in 0..design.register_count() {
        table.insert(design.register_name(place), place)?;
    }
    Ok(table)
}

fn input_table<'a>(alloc: Global, design: &'a Design) -> Result<BTreeMap<&'a str, usize>, NoMemory>
    ensures { IfOk result (λ t. (n : List ℕ) → place_under t n ≡ place_in (inputs_of (parts_of design.now)) n) }
{
    let mut table = BTreeMap::new(alloc);
    for place in 0..design.input_count() {
        table.insert(input_name(design, place), place)?;
    }
    Ok(table)
}

/// The design with its tables.
pub(crate) fn named<'a>(alloc: Global, design: &'a Design) -> Result<NamedDesign<'a>, NoMemory>
    ensures { IfOk result (λ n. n.design.now ≡ design.now) }
{
    let registers = register_table(alloc, design)?;
    let inputs = input_table(alloc, design)?;
    Ok(NamedDesign {
        design,
        registers,
        inputs,
    })
}

/// The place of a register by its name.
pub(crate) fn register_place(names: &NamedDesign<'_>, name: &str) -> Option<usize>
    ensures place { result ≡ place_in (registers_of (parts_of names.now.design.now)) name.now }
    ensures within { IfSome result (λ k. k < length (registers_of (parts_of names.now.design.now))) }
{
    names.registers.get(name).copied()
}

/// The place of an input by its name.
pub(crate) fn input_place(names: &NamedDesign<'_>, name: &str) -> Option<usize>
    ensures place { result ≡ place_in (inputs_of (parts_of names.now.design.now)) name.now }
    ensures within { IfSome result (λ k. k < length (inputs_of (parts_of names.now.design.now))) }
{
    names.inputs.get(name).copied()
}
