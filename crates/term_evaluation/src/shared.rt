//! Lists of values whose memories share what they have in common.

ghost use Rattle.std.specs.Prelude.{◌≡◌, ◌<◌, ◌++◌, ◌↔◌, [], ◌∷◌, IfOk, OnOk, OnErr, IsTrue, length, take, slice_index_or, slice_set};
ghost use Rattle.wb_values.specs.Value.{HasSort, number};
ghost use Rattle.model_meaning.specs.Term.{is_sort};
ghost use Rattle.wb_terms.specs.Sort.{as_sort};
ghost use Rattle.wb_terms.specs.Environment.{as_value};
ghost use Rattle.term_evaluation.specs.Slots.{zero_of, with_number, values_in, AreSlotsOf, IsShownAs};

use crate::NoMemory;
use crate::slots::{
    Shown, Slot, copy_slots, is_same_slot, is_value, shown_slot, slot_of, with_word, zero_slot,
};
use sparse_memories::{Copies, Pool};
use std::alloc::Global;
use std::marker::Model;
use wb_terms::{Sort, Value};

/// Values in some order. A memory takes room for what its words other than 0 need, and shares it with those that it was made of.
/// Contracts see the list of the values.
#[derive(Drop)]
pub struct SharedValues {
    pub(crate) slots: Vec<Slot>,
    pub(crate) pool: Pool,
}

impl Model for SharedValues {
    ghost use Rattle.std.specs.Prelude.{List};
    ghost use Rattle.wb_values.specs.Value as meaning;
    ghost use Rattle.term_evaluation.specs.Slots.{values_in, AreSlotsOf};

    ghost Value = { List meaning.Value };

    ghost view = { λ v. values_in v.pool v.slots.items };

    ghost invariant = { λ v. AreSlotsOf v.pool v.slots.items };
}

impl SharedValues {
    /// No values.
    pub fn new(alloc: Global) -> Result<SharedValues, NoMemory>
        ensures { IfOk result (λ v. v ≡ []) }
    {
        let pool = Pool::new(alloc)?;
        Ok(SharedValues {
            slots: Vec::new(alloc),
            pool,
        })
    }

    /// The values of slots of a pool.
    pub(crate) fn from_parts(slots: Vec<Slot>, pool: Pool) -> SharedValues
        requires { AreSlotsOf pool slots.items }
        ensures { result ≡ values_in pool slots.items }
    {
        SharedValues { slots, pool }
    }

    /// The slots of the values, and their pool.
    pub(crate) fn into_parts(self) -> (Vec<Slot>, Pool)
        ensures slots { AreSlotsOf result.1 result.0.items }
        ensures values { values_in result.1 result.0.items ≡ self }
    {
        let SharedValues { slots, pool } = self;
        (slots, pool)
    }

    /// How many values there are.
    pub fn len(&self) -> usize
        ensures { result ≡ length self.now }
    {
        self.slots.len()
    }

    /// Adds a value of a sort.
    pub fn push(&mut self, value: &Value, sort: Sort) -> Result<(), NoMemory>
        requires in_range { IsTrue (is_sort (as_sort sort)) }
        requires sort { HasSort (as_value value.now) (as_sort sort) }
        ensures ok { OnOk result (self.new ≡ self.old ++ as_value value.now ∷ []) }
        ensures err { OnErr result (self.new ≡ self.old) }
    {
        let slot = slot_of(&mut self.pool, value, sort)?;
        self.slots.push(slot)?;
        Ok(())
    }

    /// Adds false, the number 0, or a memory whose words are 0.
    pub fn push_zero(&mut self, sort: Sort) -> Result<(), NoMemory>
        requires { IsTrue (is_sort (as_sort sort)) }
        ensures ok { OnOk result (self.new ≡ self.old ++ zero_of (as_sort sort) ∷ []) }
        ensures err { OnErr result (self.new ≡ self.old) }
    {
        let slot = zero_slot(&self.pool, sort);
        self.slots.push(slot)?;
        Ok(())
    }

    /// Sets a word of a memory, or all of another value.
    pub fn set_word(&mut self, place: usize, word: u64, value: u128) -> Result<(), NoMemory>
        requires { place < length self.old }
        ensures ok { OnOk result (self.new ≡ slice_set self.old place (with_number (slice_index_or self.old place (number 0)) word value)) }
        ensures err { OnErr result (self.new ≡ self.old) }
    {
        let slot = self.slots[place];
        let changed = with_word(&mut self.pool, slot, word, value)?;
        self.slots[place] = changed;
        Ok(())
    }

    /// Takes the values from a place on out.
    pub fn truncate(&mut self, len: usize)
        ensures { self.new ≡ take len self.old }
    {
        self.slots.truncate(len);
    }

    /// The same values, which take no more room than they need.
    pub fn copy(&self, alloc: Global) -> Result<SharedValues, NoMemory>
        ensures { IfOk result (λ v. v ≡ self.now) }
    {
        let mut pool = Pool::new(alloc)?;
        let mut copies = Copies::new(alloc, &self.pool)?;
        let slots = copy_slots(alloc, &mut pool, &self.pool, &mut copies, &self.slots)?;
        Ok(SharedValues::from_parts(slots, pool))
    }

    /// What is shown of a value.
    pub fn shown(&self, alloc: Global, place: usize) -> Result<Shown, NoMemory>
        requires { place < length self.now }
        ensures { IfOk result (IsShownAs (slice_index_or self.now place (number 0))) }
    {
        let slot = self.slots[place];
        let shown = shown_slot(alloc, &self.pool, slot)?;
        Ok(shown)
    }

    /// Whether a value is one of another list.
    pub fn is_same_at(&self, place: usize, other: &SharedValues, there: usize) -> bool
        requires place { place < length self.now }
        requires there { there < length other.now }
        ensures { IsTrue result ↔ (slice_index_or self.now place (number 0) ≡ slice_index_or other.now there (number 0)) }
    {
        let here = self.slots[place];
        let beside = other.slots[there];
        is_same_slot(&self.pool, here, &other.pool, beside)
    }

    /// Whether a value is the given one.
    pub fn is_value_at(&self, place: usize, value: &Value) -> bool
        requires { place < length self.now }
        ensures { IsTrue result ↔ (slice_index_or self.now place (number 0) ≡ as_value value.now) }
    {
        let slot = self.slots[place];
        is_value(&self.pool, slot, value)
    }
}
