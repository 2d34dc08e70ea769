//! The updates of an instruction: their terms are put, and they are ordered by their states.

ghost use Rattle.std.specs.Prelude.{◌≡◌, ◌<◌, ◌≤◌, ◌+◌, ◌==◌, ℕ, true, false, cond, length, map, None, Some, IfOk, IfSome, OnOk};
ghost use Rattle.std.specs.Ordering.{nat_cmp};
ghost use Rattle.std.specs.BTreeMap.{IsOrdered};
ghost use Rattle.wb_values.specs.Choice.{first_of};
ghost use Rattle.ila_file.specs.View.{update_view};
ghost use Rattle.wb_terms.specs.Graph.{tree};
ghost use Rattle.model_meaning.specs.Model.{state_named};
ghost use Rattle.model_files.specs.Scope.{of_update, placed, placed_updates};
ghost use Rattle.ila_build.specs.Sizes.{size_of, sizes_of};
ghost use Rattle.ila_build.specs.Standing.{AreIn, IsGrown, IsTable, seen, under_name};
ghost use Rattle.ila_build.specs.Knowing.{are_right, is_right};
ghost use Rattle.ila_build.specs.Refusing.{IsDue, IsUnrefused, is_leaf};
ghost use Rattle.ila_build.specs.Updating.{AreUpdated, ChoosesOne, IsLeafOf, chosen};

use crate::putting::{put_term, under_name};
use ila_file::WrittenUpdate;
use std::alloc::Global;
use std::collections::BTreeMap;
use wb_terms::{NameId, NoMemory, Node, PutStop, TermId, Terms};

/// The declared name that a name stands for, if it stands for one.
fn declared_id<'v>(
    terms: &Terms,
    known: &BTreeMap<&'v [u8], TermId>,
    name: &'v str,
) -> Option<NameId>
    requires { AreIn terms.now known.now None }
    ensures leaf { IfSome result (λ i. IsLeafOf terms.now i (under_name known.now name.now)) }
    ensures none { result ≡ None → is_leaf (seen terms.now (under_name known.now name.now)) ≡ false }
{
    match under_name(known, name) {
        Some(term) => name_of(terms, term),
        None => None,
    }
}

/// The declared name that a term is, if it is one.
fn name_of(terms: &Terms, term: TermId) -> Option<NameId>
    requires { term.0 < length terms.now.nodes }
    ensures leaf { IfSome result (λ i. IsLeafOf terms.now i (Some term)) }
    ensures none { result ≡ None → is_leaf (tree terms.now term.0) ≡ false }
{
    match *terms.node(term) {
        Node::Name(id) => Some(id),
        _ => None,
    }
}

/// Chooses a term for a state, unless one is chosen.
fn choose(table: &mut BTreeMap<usize, TermId>, state: usize, term: TermId) -> Result<(), NoMemory>
    ensures { OnOk result ((k : ℕ) → chosen table.new k ≡ first_of (chosen table.old k) (cond (k == state) (Some term) None)) }
{
    if !table.contains_key(&state) {
        table.insert(state, term)?;
    }
    Ok(())
}

/// Puts an update's term, and chooses it for its state unless one is chosen.
fn put_update<'v>(
    terms: &mut Terms,
    known: &BTreeMap<&'v [u8], TermId>,
    fetch: Option<TermId>,
    table: &mut BTreeMap<usize, TermId>,
    update: &WrittenUpdate<'v>,
) -> Result<(), PutStop>
    requires table { IsTable terms.old known.now }
    requires in_store { AreIn terms.old known.now fetch }
    ensures grown { IsGrown terms.old terms.new }
    ensures added { length terms.new.nodes ≤ length terms.old.nodes + size_of (update_view update.now).1 }
    ensures chosen { OnOk result (ChoosesOne terms.old known.now fetch terms.new table.old table.new (update_view update.now)) }
    ensures unrefused { IsUnrefused result (IsDue terms.old known.now fetch (λ names ss. is_right (placed names (update_view update.now).1 (of_update (update_view update.now).0 (state_named ss (update_view update.now).0))) ≡ true)) }
{
    let _names = terms.name_count();
    let Some(state) = declared_id(terms, known, update.state) else {
        return Err(PutStop::BadSort);
    };
    let term = put_term(terms, known, fetch, &update.term)?;
    if choose(table, state.0, term).is_err() {
        return Err(PutStop::NoMemory);
    }
    Ok(())
}

/// The chosen updates, by ascending states.
fn chosen_updates(
    alloc: Global,
    table: &BTreeMap<usize, TermId>,
) -> Result<Vec<(usize, TermId)>, NoMemory>
    ensures updates { IfOk result (λ updates. updates.items ≡ table.now.entries) }
    ensures ordered { IsOrdered nat_cmp table.now }
{
    let mut updates = Vec::new(alloc);
    for (state, term) in table {
        updates.push((*state, *term))?;
    }
    Ok(updates)
}

/// Puts the terms of updates. They come back by ascending states.
pub(crate) fn put_updates<'v>(
    alloc: Global,
    terms: &mut Terms,
    known: &BTreeMap<&'v [u8], TermId>,
    fetch: Option<TermId>,
    updates: &[WrittenUpdate<'v>],
) -> Result<Vec<(usize, TermId)>, PutStop>
    requires table { IsTable terms.old known.now }
    requires in_store { AreIn terms.old known.now fetch }
    ensures grown { IsGrown terms.old terms.new }
    ensures added { length terms.new.nodes ≤ length terms.old.nodes + sizes_of (map update_view updates.now) }
    ensures updates { IfOk result (λ us. AreUpdated terms.old known.now fetch terms.new us.items (map update_view updates.now)) }
    ensures unrefused { IsUnrefused result (IsDue terms.old known.now fetch (λ names ss. are_right (placed_updates names ss (map update_view updates.now)) ≡ true)) }
{
    let _names = terms.name_count();
    let mut table = BTreeMap::new(alloc);
    for update in updates {
        put_update(terms, known, fetch, &mut table, update)?;
    }
    let Ok(updates) = chosen_updates(alloc, &table) else {
        return Err(PutStop::NoMemory);
    };
    Ok(updates)
}
