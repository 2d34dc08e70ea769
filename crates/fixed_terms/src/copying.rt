//! Copies of terms with constants in place of what is fixed.

ghost use Rattle.std.specs.Prelude.{◌≡◌, ◌<◌, length, IfOk, OnOk};
ghost use Rattle.term_copies.specs.Copies.{IsExtended};
ghost use Rattle.fixed_terms.specs.Fixed.{AreFixes, AreSame, IsSame, AreOwn, AreWithin};

use crate::NoMemory;
use crate::fixes::Fix;
use crate::nodes::{has_changed, node_of, over_copies, put};
use std::alloc::Global;
use wanted_terms::closed;
use wb_terms::{TermId, Terms};

/// A copy of a term, which is worth what the term is wherever the fixes hold. Only what stands on a fixed name is put.
pub(crate) fn put_copy(
    alloc: Global,
    terms: &mut Terms,
    id: TermId,
    fixes: &[Fix],
) -> Result<TermId, NoMemory>
    requires id { id.0 < length terms.old.nodes }
    requires fixes { AreFixes terms.old fixes.now }
    ensures extended { IsExtended terms.old terms.new }
    ensures copy { IfOk result (λ r. IsSame terms.new fixes.now r.0 id.0) }
{
    let roots = vec![in alloc; id; 1]?;
    let wanted = closed(alloc, terms, &roots)?;
    let mut copies = own_ids(alloc, terms)?;
    put_values(terms, &mut copies, fixes)?;
    put_each(terms, &mut copies, fixes, &wanted)?;
    Ok(copies[id.0])
}

/// The id of each term of the store, at its place.
fn own_ids(alloc: Global, terms: &Terms) -> Result<Vec<TermId>, NoMemory>
    ensures { IfOk result (λ ids. AreOwn (length terms.now.nodes) ids.items) }
{
    let mut ids = Vec::new(alloc);
    for place in 0..terms.len() as usize {
        ids.push(TermId(place))?;
    }
    Ok(ids)
}

/// Puts the values of the fixed names as their copies.
fn put_values(terms: &mut Terms, copies: &mut Vec<TermId>, fixes: &[Fix]) -> Result<(), NoMemory>
    requires fixes { AreFixes terms.old fixes.now }
    requires copies { AreSame terms.old fixes.now copies.old.items }
    requires room { length copies.old.items ≡ length terms.old.nodes }
    ensures extended { IsExtended terms.old terms.new }
    ensures copies { OnOk result (AreSame terms.new fixes.now copies.new.items) }
    ensures room { length copies.new.items ≡ length copies.old.items }
{
    for place in 0..fixes.len() {
        let fix = fixes[place];
        let value = put(terms, fix.value)?;
        copies[fix.name.0] = value;
    }
    Ok(())
}

/// Puts copies of the listed terms, in the order of the list.
fn put_each(
    terms: &mut Terms,
    copies: &mut Vec<TermId>,
    fixes: &[Fix],
    wanted: &[TermId],
) -> Result<(), NoMemory>
    requires fixes { AreFixes terms.old fixes.now }
    requires copies { AreSame terms.old fixes.now copies.old.items }
    requires wanted { AreWithin (length copies.old.items) wanted.now }
    ensures extended { IsExtended terms.old terms.new }
    ensures copies { OnOk result (AreSame terms.new fixes.now copies.new.items) }
    ensures room { length copies.new.items ≡ length copies.old.items }
{
    for place in 0..wanted.len() {
        let id = wanted[place];
        if copies[id.0] == id {
            let copy = put_over(terms, copies, fixes, id)?;
            copies[id.0] = copy;
        }
    }
    Ok(())
}

/// A term over the copies of its operands: the term itself, where none of them is another one.
fn put_over(
    terms: &mut Terms,
    copies: &[TermId],
    fixes: &[Fix],
    id: TermId,
) -> Result<TermId, NoMemory>
    requires fixes { AreFixes terms.old fixes.now }
    requires copies { AreSame terms.old fixes.now copies.now }
    requires id { id.0 < length copies.now }
    ensures extended { IsExtended terms.old terms.new }
    ensures copy { IfOk result (λ r. IsSame terms.new fixes.now r.0 id.0) }
{
    let node = node_of(terms, id);
    if !has_changed(copies, node) {
        return Ok(id);
    }
    let copy = put(terms, over_copies(node, copies))?;
    Ok(copy)
}
