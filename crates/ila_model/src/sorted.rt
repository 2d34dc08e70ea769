//! What it takes for the parts of a model to be well sorted: its declarations, its conditions and updates over their store.

ghost use Rattle.std.specs.Prelude.{◌≡◌, ◌≤◌, true, length, drop, IsTrue};
ghost use Rattle.model_meaning.specs.Term.{is_sort};
ghost use Rattle.wb_terms.specs.Sort.{as_sort};
ghost use Rattle.ila_model.specs.Scope.{AreScopes};
ghost use Rattle.ila_model.specs.Sorted.{are_distinct, are_states, is_initial, are_inputs, is_input_sort, are_placed, is_term_of, is_read_at, is_condition, is_state_at, are_updates, is_instruction, is_link, same_place, child_after, IsChildBelow, are_instructions, is_machine, is_child, are_children, are_declarations};

use crate::parts::{Child, ChildId, Instruction, Parts, Update};
use crate::scopes::{Scopes, around, is_child_nested, may_read};
use wb_bits::mask;
use wb_terms::{NameId, Sort, TermId, Terms, Value};

/// Whether the table has the states, the inputs and the private states, and nothing else.
pub(crate) fn are_declarations(parts: &Parts) -> bool
    ensures declared { result ≡ are_declarations parts.now }
    ensures distinct { are_distinct parts.now.terms.names ≡ true }
{
    let names = parts.terms.name_count() as usize;
    let states = parts.initial_values.len();
    if !are_states(&parts.terms, 0, &parts.initial_values, false) {
        return false;
    }
    if !are_inputs(&parts.terms, states, parts.inputs) {
        return false;
    }
    are_placed(&parts.children, states + parts.inputs, names)
}

/// Whether the names from a place on may be states with these initial values.
fn are_states(terms: &Terms, first: usize, initial_values: &[Option<Value>], private: bool) -> bool
    ensures { result ≡ are_states private (drop first terms.now.names) initial_values.now }
{
    let names = terms.name_count() as usize;
    if names.saturating_sub(first) < initial_values.len() {
        return false;
    }
    for (place, initial) in initial_values.iter().enumerate() {
        if !is_initial(private, terms.name_sort(NameId(first + place)), initial) {
            return false;
        }
    }
    true
}

/// Whether a state of this sort may have this initial value.
fn is_initial(private: bool, sort: Sort, initial: &Option<Value>) -> bool
    requires { IsTrue (is_sort (as_sort sort)) }
    ensures { result ≡ is_initial private (as_sort sort) initial.now }
{
    match (sort, initial) {
        (_, None) => !private,
        (Sort::Truth, Some(Value::Truth(_))) => true,
        (Sort::Word(width), Some(Value::Number(number))) => *number <= mask(width),
        _ => false,
    }
}

/// Whether so many names from a place on may be inputs.
fn are_inputs(terms: &Terms, first: usize, count: usize) -> bool
    ensures { result ≡ are_inputs count (drop first terms.now.names) }
{
    let names = terms.name_count() as usize;
    if names.saturating_sub(first) < count {
        return false;
    }
    for place in first..first + count {
        if !is_input_sort(terms.name_sort(NameId(place))) {
            return false;
        }
    }
    true
}

/// Whether an input may have this sort.
fn is_input_sort(sort: Sort) -> bool
    ensures { result ≡ is_input_sort (as_sort sort) }
{
    match sort {
        Sort::Truth | Sort::Word(_) => true,
        Sort::Memory(_, _) => false,
    }
}

/// Whether the private states of the children follow one another from a place of the table on to its end.
fn are_placed(children: &[Child], from: usize, total: usize) -> bool
    requires { from ≤ total }
    ensures { result ≡ are_placed from total children.now }
{
    let mut next = from;
    for child in children {
        let privates = child.initial_values.len();
        if child.first.0 != next {
            return false;
        }
        if total - next < privates {
            return false;
        }
        next += privates;
    }
    next == total
}

/// Whether the term is in the store and has this sort.
fn is_term_of(terms: &Terms, sort: Sort, id: TermId) -> bool
    ensures { result ≡ is_term_of terms.now (as_sort sort) id.0 }
{
    (id.0 as u64) < terms.len() && terms.sort(id) == sort
}

/// Whether it is a term of this sort that may be read at a place.
fn is_read_at(parts: &Parts, scopes: &Scopes, at: Option<usize>, sort: Sort, id: TermId) -> bool
    requires { AreScopes parts.now scopes.now }
    ensures { result ≡ is_read_at parts.now at (as_sort sort) id.0 }
{
    if !is_term_of(&parts.terms, sort, id) {
        return false;
    }
    may_read(&parts.children, at, scopes.terms[id.0])
}

/// Whether it is a truth value that may be read at a place.
fn is_condition(parts: &Parts, scopes: &Scopes, at: Option<usize>, id: TermId) -> bool
    requires { AreScopes parts.now scopes.now }
    ensures { result ≡ is_condition parts.now at id.0 }
{
    is_read_at(parts, scopes, at, Sort::Truth, id)
}

/// Whether it is a state that is known at a place.
fn is_state_at(parts: &Parts, scopes: &Scopes, at: Option<usize>, state: NameId) -> bool
    requires { AreScopes parts.now scopes.now }
    ensures { result ≡ is_state_at parts.now at state.0 }
{
    let states = parts.initial_values.len();
    if parts.terms.name_count() as usize <= state.0 {
        return false;
    }
    if states <= state.0 && state.0 - states < parts.inputs {
        return false;
    }
    may_read(&parts.children, at, scopes.names[state.0])
}

/// Whether each update is of a state known at the place by a term of its sort, in ascending order of the states.
fn are_updates(parts: &Parts, scopes: &Scopes, at: Option<usize>, updates: &[Update]) -> bool
    requires { AreScopes parts.now scopes.now }
    ensures { result ≡ are_updates parts.now at 0 updates.now }
{
    let mut next = 0;
    for update in updates {
        let state = update.state;
        if state.0 < next || !is_state_at(parts, scopes, at, state) {
            return false;
        }
        if !is_read_at(parts, scopes, at, parts.terms.name_sort(state), update.term) {
            return false;
        }
        next = state.0 + 1;
    }
    true
}

/// Whether the instruction's decode condition is a truth value and its updates are well sorted.
fn is_instruction(
    parts: &Parts,
    scopes: &Scopes,
    at: Option<usize>,
    instruction: &Instruction,
) -> bool
    requires { AreScopes parts.now scopes.now }
    ensures { result ≡ is_instruction parts.now at instruction.now }
{
    is_condition(parts, scopes, at, instruction.decode)
        && are_updates(parts, scopes, at, &instruction.updates)
}

/// Whether two places are one.
fn same_place(x: Option<usize>, y: Option<usize>) -> bool
    ensures { result ≡ same_place x y }
{
    match (x, y) {
        (None, None) => true,
        (Some(a), Some(b)) => a == b,
        _ => false,
    }
}

/// Whether the child of an instruction, if any, is run from the place and does not stand before the given child.
fn is_link(children: &[Child], at: Option<usize>, from: usize, child: Option<ChildId>) -> bool
    ensures { result ≡ is_link children.now at from child }
{
    match child {
        None => true,
        Some(id) => {
            from <= id.0 && id.0 < children.len() && same_place(around(children, id.0), at)
        }
    }
}

/// The child behind that of an instruction, one of so many, if any, else the given one.
fn child_after(from: usize, child: Option<ChildId>, count: usize) -> usize
    requires { IsChildBelow count child }
    ensures { result ≡ child_after from child }
{
    match child {
        None => from,
        Some(id) => id.0 + 1,
    }
}

/// Whether each instruction of a machine is well sorted, and their children stand in ascending order.
fn are_instructions(
    parts: &Parts,
    scopes: &Scopes,
    at: Option<usize>,
    instructions: &[Instruction],
) -> bool
    requires { AreScopes parts.now scopes.now }
    ensures { result ≡ are_instructions parts.now at 0 instructions.now }
{
    let mut next = 0;
    for instruction in instructions {
        if !is_instruction(parts, scopes, at, instruction) {
            return false;
        }
        if !is_link(&parts.children, at, next, instruction.child) {
            return false;
        }
        next = child_after(next, instruction.child, parts.children.len());
    }
    true
}

/// Whether a machine's valid condition and instructions are well sorted.
pub(crate) fn is_machine(
    parts: &Parts,
    scopes: &Scopes,
    at: Option<usize>,
    valid: TermId,
    instructions: &[Instruction],
) -> bool
    requires { AreScopes parts.now scopes.now }
    ensures { result ≡ is_machine parts.now at valid.0 instructions.now }
{
    is_condition(parts, scopes, at, valid) && are_instructions(parts, scopes, at, instructions)
}

/// Whether a child is well sorted.
fn is_child(parts: &Parts, scopes: &Scopes, place: usize, child: &Child) -> bool
    requires { AreScopes parts.now scopes.now }
    ensures { result ≡ is_child parts.now place child.now }
{
    if child.steps < 1 || 4096 < child.steps {
        return false;
    }
    if !is_child_nested(&parts.children, place) {
        return false;
    }
    if !are_states(&parts.terms, child.first.0, &child.initial_values, true) {
        return false;
    }
    is_machine(parts, scopes, Some(place), child.valid, &child.instructions)
}

/// Whether each child is well sorted.
pub(crate) fn are_children(parts: &Parts, scopes: &Scopes) -> bool
    requires { AreScopes parts.now scopes.now }
    ensures { result ≡ are_children parts.now 0 parts.now.children.items }
{
    for (place, child) in parts.children.iter().enumerate() {
        if !is_child(parts, scopes, place, child) {
            return false;
        }
    }
    true
}
