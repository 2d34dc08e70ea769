//! The new store's names: those of the old one, then one for each word of each memory.

ghost use Rattle.std.specs.Prelude.{◌≡◌, ◌<◌, ◌+◌, ◌++◌, ◌∷◌, [], map, length, IfOk, OnOk, IsTrue, None, string_bytes};
ghost use Rattle.wb_values.specs.Value.{word, entry_of};
ghost use Rattle.model_meaning.specs.Term.{is_width, is_sort};
ghost use Rattle.wb_terms.specs.Graph.{HasDistinctNames, with_name};
ghost use Rattle.wb_terms.specs.Sort.{as_sort};
ghost use Rattle.ob_mem.specs.Words.{AreFree, AddsWords, word_count, listed, word_at, words_of, starts_of, entry_at, name_of_word, entry_of_word, HasWords};

use crate::NoMemory;
use crate::words::{MemoryWord, new_marks, word_name};
use std::alloc::{AllocError, Global};
use wb_terms::{NameId, PutStop, Sort, Terms};

/// A store that has the names alone, the words of the memories, and for each old name the place of its first word's name.
#[derive(Drop)]
pub(crate) struct Named {
    pub terms: Terms,
    pub list: Vec<MemoryWord>,
    pub firsts: Vec<usize>,
}

/// Declares a name that the store lacks.
fn declare(terms: &mut Terms, name: String, sort: Sort) -> Result<NameId, NoMemory>
    requires free { entry_of terms.old.names (string_bytes name) ≡ None }
    requires sort { IsTrue (is_sort (as_sort sort)) }
    ensures id { IfOk result (λ id. id.0 ≡ length terms.old.names) }
    ensures ok { OnOk result (terms.new ≡ with_name terms.old (string_bytes name) (as_sort sort)) }
{
    match terms.declare(name, sort) {
        Ok(id) => Ok(id),
        Err(PutStop::NoMemory) => Err(AllocError),
        Err(PutStop::BadSort) => unreachable!(),
    }
}

/// A store with the same names and no term.
fn same_names(alloc: Global, terms: &Terms) -> Result<Terms, NoMemory>
    ensures { IfOk result (λ copy. copy ≡ record { names = terms.now.names; nodes = [] }) }
{
    let mut copy = Terms::new(alloc)?;
    for place in 0..terms.name_count() as usize {
        let id = NameId(place);
        let name = String::from_str(alloc, terms.name(id))?;
        declare(&mut copy, name, terms.name_sort(id))?;
    }
    Ok(copy)
}

/// Declares the name of one word of so many bits.
fn declare_word(
    alloc: Global,
    terms: &mut Terms,
    marks: usize,
    width: u32,
) -> Result<NameId, NoMemory>
    requires free { AreFree marks terms.old.names }
    requires width { IsTrue (is_width width) }
    ensures id { IfOk result (λ id. id.0 ≡ length terms.old.names) }
    ensures ok { OnOk result (terms.new ≡ with_name terms.old (name_of_word marks (length terms.old.names)) (word width)) }
    ensures free { OnOk result (AreFree marks terms.new.names) }
{
    let place = terms.name_count() as usize;
    let name = word_name(alloc, marks, place)?;
    let id = declare(terms, name, Sort::Word(width))?;
    Ok(id)
}

/// Declares the names of the words of one memory, and lists the words. A name of another sort has none.
fn declare_words(
    alloc: Global,
    terms: &mut Terms,
    list: &mut Vec<MemoryWord>,
    marks: usize,
    old: &Terms,
    memory: NameId,
) -> Result<(), NoMemory>
    requires memory { memory.0 < length old.now.names }
    requires free { AreFree marks terms.old.names }
    ensures words { OnOk result (AddsWords marks old.now.names memory.0 terms.old.names terms.new.names list.old.items list.new.items) }
    ensures nodes { OnOk result (terms.new.nodes ≡ terms.old.nodes) }
    ensures free { OnOk result (AreFree marks terms.new.names) }
{
    let Sort::Memory(address_width, word_width) = old.name_sort(memory) else {
        return Ok(());
    };
    let count = 1u64 << address_width;
    for address in 0..count {
        let name = declare_word(alloc, terms, marks, word_width)?;
        list.push(MemoryWord {
            memory,
            address,
            name,
        })?;
    }
    Ok(())
}

/// A store with the old names and one for each word of each memory.
pub(crate) fn with_words(alloc: Global, old: &Terms) -> Result<Named, NoMemory>
    ensures list { IfOk result (λ n. n.list.items ≡ words_of 0 (length old.now.names) old.now.names) }
    ensures names { IfOk result (λ n. HasWords old.now.names n.terms.names n.list.items) }
    ensures firsts { IfOk result (λ n. n.firsts.items ≡ starts_of (length old.now.names) old.now.names) }
    ensures nodes { IfOk result (λ n. n.terms.nodes ≡ []) }
    ensures distinct { IfOk result (λ n. HasDistinctNames n.terms.names) }
    ensures old_distinct { HasDistinctNames old.now.names }
{
    let _old = old.name_count();
    let marks = new_marks(old)?;
    let mut terms = same_names(alloc, old)?;
    let mut list = Vec::new(alloc);
    let mut firsts = Vec::new(alloc);
    for place in 0..old.name_count() as usize {
        let start = terms.name_count() as usize;
        firsts.push(start)?;
        declare_words(alloc, &mut terms, &mut list, marks, old, NameId(place))?;
    }
    let _new = terms.name_count();
    Ok(Named {
        terms,
        list,
        firsts,
    })
}
