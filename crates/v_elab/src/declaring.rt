//! The names of a store: those of a module's registers and inputs, each with the sort of its values.

ghost use Rattle.std.specs.Prelude.{◌≡◌, ◌≤◌, ◌++◌, ℕ, List, [], None, map, IfOk, OnOk, IsTrue};
ghost use Rattle.wb_values.specs.Value.{entry_of};
ghost use Rattle.model_meaning.specs.Term.{is_sort};
ghost use Rattle.verilog_meaning.specs.Expression.{object_width};
ghost use Rattle.verilog_meaning.specs.Register.{word_count};
ghost use Rattle.verilog_meaning.specs.Settled.{IsAddressWidth};
ghost use Rattle.wb_terms.specs.Sort.{as_sort};
ghost use Rattle.wb_terms.specs.Graph.{with_name};
ghost use Rattle.v_value.specs.Scope.{object_of};
ghost use Rattle.v_value.specs.Scope.{scope_at};
ghost use Rattle.v_lower.specs.Lowered.{IsSortOf};
ghost use Rattle.v_elab.specs.Names.{AreEntriesOf, AreDistinct, HasFewWords};

use crate::NoMemory;
use std::alloc::{AllocError, Global};
use v_registers::word_count;
use v_value::scope::{Object, Scope};
use v_value::width::object_width;
use wb_terms::{PutStop, Sort, Terms};

/// How wide the address of a memory of so many words is.
fn address_width(count: usize) -> u32
    requires { count ≤ 65536 }
    ensures width { IsAddressWidth count result }
    ensures few { result ≤ 16 }
{
    let mut room: usize = 2;
    for width in 1..16u32 {
        if count <= room {
            return width;
        }
        room = room * 2;
    }
    16
}

/// The sort of the values of a net, variable or memory.
pub(crate) fn sort_of(object: Object) -> Sort
    requires narrow { object_width (object_of object) ≤ 128 }
    requires few { word_count (object_of object) ≤ 65536 }
    ensures of_object { IsSortOf (object_of object) (as_sort result) }
    ensures in_range { IsTrue (is_sort (as_sort result)) }
{
    let width = object_width(object);
    if object.addresses.is_some() {
        Sort::Memory(address_width(word_count(object)), width)
    } else {
        Sort::Word(width)
    }
}

/// Declares a name.
fn declare(alloc: Global, terms: &mut Terms, name: &str, sort: Sort) -> Result<(), NoMemory>
    requires fresh { entry_of terms.old.names name.now ≡ None }
    requires in_range { IsTrue (is_sort (as_sort sort)) }
    ensures { OnOk result (terms.new ≡ with_name terms.old name.now (as_sort sort)) }
{
    let text = String::from_str(alloc, name)?;
    match terms.declare(text, sort) {
        Ok(_) => Ok(()),
        Err(PutStop::NoMemory) => Err(AllocError),
        Err(PutStop::BadSort) => unreachable!(),
    }
}

/// A store with these names of a module, and no term.
pub(crate) fn store_of(alloc: Global, scope: &Scope<'_>, list: &[&str]) -> Result<Terms, NoMemory>
    requires narrow { (n : List ℕ) → object_width (scope_at scope.now n) ≤ 128 }
    requires few { HasFewWords (scope_at scope.now) }
    requires distinct { AreDistinct (map (λ n. n.now) list.now) }
    ensures names { IfOk result (λ t. AreEntriesOf (scope_at scope.now) (map (λ n. n.now) list.now) t.names) }
    ensures nodes { IfOk result (λ t. t.nodes ≡ []) }
{
    let mut terms = Terms::new(alloc)?;
    for name in list {
        declare(alloc, &mut terms, *name, sort_of(scope.object(*name)))?;
    }
    Ok(terms)
}
