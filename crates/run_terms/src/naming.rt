//! The names of a store of a run.

ghost use Rattle.std.specs.Prelude.{◌≡◌, ◌<◌, ◌≤◌, ◌-◌, ◌++◌, IfOk, OnOk, IsTrue, drop, length, decimal, string_bytes, take};
ghost use Rattle.model_meaning.specs.Term.{is_sort};
ghost use Rattle.wb_terms.specs.Sort.{as_sort};
ghost use Rattle.wb_terms.specs.Graph.{with_name};
ghost use Rattle.v_design.specs.Seen.{parts_of};
ghost use Rattle.run_terms.specs.Names.{numbered, names_of_run};

use crate::NoMemory;
use itoa::Buffer;
use std::alloc::{AllocError, Global};
use v_design::Design;
use wb_terms::{NameId, PutStop, Sort, Terms};

/// A number in decimal digits.
fn name_of_number(alloc: Global, number: usize) -> Result<String, NoMemory>
    ensures { IfOk result (λ text. string_bytes text ≡ decimal number) }
{
    let mut buffer = Buffer::new();
    String::from_str(alloc, buffer.format(number))
}

/// Declares a name, which is the number of the names before it.
fn declare(alloc: Global, terms: &mut Terms, sort: Sort) -> Result<NameId, NoMemory>
    requires names { terms.old.names ≡ numbered 0 terms.old.names }
    requires sort { IsTrue (is_sort (as_sort sort)) }
    ensures ok { OnOk result (terms.new ≡ with_name terms.old (decimal (length terms.old.names)) (as_sort sort)) }
{
    let name = name_of_number(alloc, terms.name_count() as usize)?;
    match terms.declare(name, sort) {
        Ok(id) => Ok(id),
        Err(PutStop::NoMemory) => Err(AllocError),
        Err(PutStop::BadSort) => unreachable!(),
    }
}

/// Declares a name for each name of a source from one place up to another, with its sort.
fn declare_part(
    alloc: Global,
    terms: &mut Terms,
    source: &Terms,
    first: usize,
    end: usize,
) -> Result<(), NoMemory>
    requires names { terms.old.names ≡ numbered 0 terms.old.names }
    requires first { first ≤ end }
    requires end { end ≤ length source.now.names }
    ensures names { OnOk result (terms.new.names ≡ numbered 0 (terms.old.names ++ take (end - first) (drop first source.now.names))) }
{
    for place in first..end {
        declare(alloc, terms, source.name_sort(NameId(place)))?;
    }
    Ok(())
}

/// A store without terms, with the names of a run.
pub(crate) fn store_of_run(alloc: Global, design: &Design, cycles: u64) -> Result<Terms, NoMemory>
    ensures names { IfOk result (λ terms. terms.names ≡ names_of_run (parts_of design.now) cycles) }
{
    let registers = design.register_count();
    let count = design.terms.name_count() as usize;
    let mut terms = Terms::new(alloc)?;
    declare_part(alloc, &mut terms, &design.terms, 0, registers)?;
    for _cycle in 0..cycles {
        declare_part(alloc, &mut terms, &design.terms, registers, count)?;
    }
    Ok(terms)
}
