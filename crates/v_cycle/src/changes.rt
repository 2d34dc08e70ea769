//! What an edge changes in registers, kept so that the next cycle changes only that in the names' values.

ghost use Rattle.std.specs.Prelude.{◌≡◌, ◌<◌, ◌++◌, [], ◌∷◌, List, IfOk, IsTrue, true, map, slice_set};
ghost use Rattle.wb_values.specs.Value as meaning;
ghost use Rattle.wb_terms.specs.Environment.{as_value};
ghost use Rattle.v_cycle.specs.Changing.{stored_in, changed, changed_by, IsListed};

use std::alloc::Global;
use wb_terms::{NoMemory, Value};

/// A number that is stored: at an address of a memory, else as all of a value.
#[derive(Clone, Copy)]
pub(crate) struct Stored {
    pub(crate) address: u128,
    pub(crate) number: u128,
}

/// A number stored in a register, by its place.
#[derive(Clone, Copy)]
pub(crate) struct Change {
    pub(crate) register: usize,
    pub(crate) stored: Stored,
}

/// The changes that an edge makes, in their order.
#[derive(Drop)]
pub(crate) struct Changes {
    pub(crate) list: Vec<Change>,
    /// Whether all of them are listed.
    pub(crate) is_complete: bool,
    /// Room for the stores of one memory, the last one first.
    pub(crate) chain: Vec<Stored>,
}

impl Changes {
    /// No changes, with room for so many stores besides one change for each register.
    pub(crate) fn new(alloc: Global, registers: usize, stores: usize) -> Result<Changes, NoMemory>
        ensures { IfOk result (λ c. c.list.items ≡ []) }
    {
        let list = Vec::with_capacity(alloc, registers.saturating_add(stores))?;
        let chain = Vec::with_capacity(alloc, stores)?;
        Ok(Changes {
            list,
            is_complete: true,
            chain,
        })
    }

    /// Takes all changes out.
    pub(crate) fn clear(&mut self)
        ensures { self.new.list.items ≡ [] }
    {
        self.list.clear();
        self.is_complete = true;
    }

    /// Adds a change, where there is room for it.
    fn add(&mut self, change: Change)
        ensures list { self.new.is_complete ≡ true → (self.old.is_complete ≡ true) × (self.new.list.items ≡ self.old.list.items ++ change ∷ []) }
        ensures chain { self.new.chain ≡ self.old.chain }
    {
        if self.list.len() < self.list.capacity() {
            let _ = self.list.push(change);
        } else {
            self.is_complete = false;
        }
    }

    /// Adds a store to the chain, if there is room for it.
    pub(crate) fn add_store(&mut self, stored: Stored) -> bool
        ensures chain { IsTrue result → self.new.chain.items ≡ self.old.chain.items ++ stored ∷ [] }
        ensures list { self.new.list ≡ self.old.list }
        ensures complete { self.new.is_complete ≡ self.old.is_complete }
    {
        self.chain.len() < self.chain.capacity() && self.chain.push(stored).is_ok()
    }
}

/// Stores a number in a word of a memory. Past the last word it does nothing.
fn store_word(words: &mut [u128], stored: Stored)
    ensures { words.new ≡ slice_set words.old stored.address stored.number }
{
    if stored.address < words.len() as u128 {
        words[stored.address as usize] = stored.number;
    }
}

/// Stores a number in a value.
fn store(value: &mut Value, stored: Stored)
    ensures { as_value value.new ≡ stored_in (as_value value.old) stored }
{
    match value {
        Value::Truth(truth) => *truth = stored.number == 1,
        Value::Number(number) => *number = stored.number,
        Value::Words(words) => store_word(words, stored),
    }
}

/// Makes a change. Past the last value it does nothing.
fn apply(values: &mut [Value], change: Change)
    ensures { map as_value values.new ≡ changed (map as_value values.old) change.register change.stored }
{
    if change.register < values.len() {
        store(&mut values[change.register], change.stored);
    }
}

/// Makes changes in their order.
pub(crate) fn apply_all(values: &mut [Value], list: &[Change])
    ensures { map as_value values.new ≡ changed_by (map as_value values.old) list.now }
{
    for change in list {
        apply(values, *change);
    }
}

/// Makes a change and lists it.
pub(crate) fn make(values: &mut [Value], changes: &mut Changes, change: Change)
    ensures values { map as_value values.new ≡ changed (map as_value values.old) change.register change.stored }
    ensures listed { (xs : List meaning.Value) → IsListed changes.old xs (map as_value values.old) → IsListed changes.new xs (map as_value values.new) }
    ensures chain { changes.new.chain ≡ changes.old.chain }
{
    apply(values, change);
    changes.add(change);
}
