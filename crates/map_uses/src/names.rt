//! What names in expressions of maps are called in the one scope of a design.

ghost use Rattle.std.specs.Prelude.{◌≡◌, ℕ, List, Contains, IfOk};
ghost use Rattle.std.specs.String.{string_bytes};
ghost use Rattle.v_instances.specs.Texts.{texts};
ghost use Rattle.v_renamed.specs.NewNames.{new_name};
ghost use Rattle.v_flat.specs.Items.{naming_at};
ghost use Rattle.v_flat.specs.Views.{namings};
ghost use Rattle.map_uses.specs.Table.{new_name_in};
ghost use Rattle.map_uses.specs.Texts.{AreNewTexts, old_names};

use crate::table::InputTable;
use map_judged::MapExpression;
use std::alloc::{AllocError, Global};
use std::collections::BTreeMap;
use v_renamed::Names;

/// A name with what it is called where it leads.
#[derive(Drop)]
struct NewText<'n> {
    name: &'n str,
    text: String,
}

/// Names, each with what it is called where it leads.
#[derive(Drop)]
pub(crate) struct NewTexts<'n> {
    list: Vec<NewText<'n>>,
}

/// The new name of a name of a module.
fn new_name<'x, 'n: 'x, 'a: 'x>(names: &Names<'a>, own: &'n str) -> &'x str
    ensures { result.now ≡ new_name names.now own.now }
{
    match names.table.get(own) {
        Some(new) => *new,
        None => own,
    }
}

/// The new name of a name of the module with a number.
fn name_there<'x, 'n: 'x, 'a: 'x>(names: &[Names<'a>], place: usize, own: &'n str) -> &'x str
    ensures { result.now ≡ naming_at (namings names.now) place own.now }
{
    match names.get(place) {
        Some(names) => new_name(names, own),
        None => own,
    }
}

/// What a dotted name is called where it leads.
fn name_in<'x, 'n: 'x, 'a: 'x>(table: &InputTable<'a, '_>, name: &'n str) -> &'x str
    ensures { result.now ≡ new_name_in table.now name.now }
{
    match table.instances.locate(name) {
        Some((place, own)) => name_there(&table.names, place, own),
        None => name,
    }
}

/// A name with what it is called where it leads.
fn text_for<'n>(
    alloc: Global,
    table: &InputTable<'_, '_>,
    name: &'n str,
) -> Result<NewText<'n>, AllocError>
    ensures name { IfOk result (λ t. t.name.now ≡ name.now) }
    ensures text { IfOk result (λ t. string_bytes t.text ≡ new_name_in table.now name.now) }
{
    let text = String::from_str(alloc, name_in(table, name))?;
    Ok(NewText { name, text })
}

/// The names in an expression, each with what it is called where it leads.
pub(crate) fn texts_for<'n>(
    expression: &MapExpression<'_, 'n>,
    table: &InputTable<'_, '_>,
    alloc: Global,
) -> Result<NewTexts<'n>, AllocError>
    ensures names { IfOk result (λ t. old_names t.list.items ≡ texts expression.now.names.items) }
    ensures texts { IfOk result (λ t. AreNewTexts (new_name_in table.now) t.list.items) }
{
    let mut list = Vec::new(alloc);
    for name in &expression.names {
        let text = text_for(alloc, table, *name)?;
        list.push(text)?;
    }
    Ok(NewTexts { list })
}

/// The table of these names.
pub(crate) fn names_in<'a>(alloc: Global, texts: &'a NewTexts<'a>) -> Result<Names<'a>, AllocError>
    ensures { IfOk result (λ t. (new : List ℕ → List ℕ) → AreNewTexts new texts.now.list.items
        → (n : List ℕ) → Contains (old_names texts.now.list.items) n → new_name t n ≡ new n) }
{
    let mut table = BTreeMap::new(alloc);
    for each in &texts.list {
        table.insert(each.name, each.text.as_str())?;
    }
    Ok(Names { table })
}
