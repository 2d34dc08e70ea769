//! Points: the values of a store's names, and terms evaluated at them, with memories that share what they have in common.

ghost use Rattle.std.specs.Prelude.{ℕ, ◌≡◌, ◌<◌, ◌++◌, [], ◌∷◌, IfOk, OnOk, OnErr, IsTrue, Some, length, slice_index_or, slice_set, take};
ghost use Rattle.wb_values.specs.Value as meaning;
ghost use Rattle.wb_values.specs.Value.{HasSort, number, numeral_of};
ghost use Rattle.model_meaning.specs.Term.{is_sort, sort_of};
ghost use Rattle.wb_terms.specs.Sort.{as_sort};
ghost use Rattle.wb_terms.specs.Graph.{Graph, tree};
ghost use Rattle.wb_terms.specs.Environment.{AreOfSorts, HasSortOf, as_value};
ghost use Rattle.wb_terms.specs.Held.{IsHeldBy};
ghost use Rattle.term_evaluation.specs.Slots.{AreSlotsOf, IsShownAs, IsSlotOf, value_in, values_in};
ghost use Rattle.term_evaluation.specs.Links.{value_at, IsLinkTo};
ghost use Rattle.term_evaluation.specs.Pending.{AreNotAfter, stamp_at};
ghost use Rattle.term_evaluation.specs.Points.{IsPointOf, IsHeldAt};

use crate::NoMemory;
use crate::evaluating::fill_term;
use crate::shared::SharedValues;
use crate::slots::{Shown, Slot, copy_slots, shown_slot, slot_of};
use sparse_memories::{Copies, Memory, Pool};
use std::alloc::Global;
use std::marker::Model;
use wb_bits::Word;
use wb_terms::{Sort, TermId, Terms, Value};

/// The values of a store's names, values that were put aside, and the values of those terms that were asked for since the last change.
/// Contracts see the values, and what is kept of each term.
#[derive(Drop)]
pub struct Point {
    names: Vec<Slot>,
    aside: Vec<Slot>,
    words: Vec<Word>,
    links: Vec<Memory>,
    /// The time at which each term was evaluated last, 0 where it never was.
    stamps: Vec<u64>,
    /// The time at which a name got a value last. A term with this stamp has its value.
    time: u64,
    /// Terms that are to be evaluated, each for the one before it.
    pending: Vec<TermId>,
    pool: Pool,
    /// How many nodes the pool may have before those that are not used any more are let go.
    limit: usize,
}

impl Model for Point {
    ghost use Rattle.term_evaluation.specs.Slots.{values_in, AreSlotsOf};
    ghost use Rattle.term_evaluation.specs.Pending.{AreNotAfter};
    ghost use Rattle.term_evaluation.specs.Points.{PointView};

    ghost Value = { PointView };

    ghost view = { λ x. record { values = values_in x.pool x.names.items; aside = values_in x.pool x.aside.items; words = x.words.items; links = x.links.items; stamps = x.stamps.items; time = x.time; pool = x.pool } };

    ghost invariant = { λ x. AreSlotsOf x.pool x.names.items × AreSlotsOf x.pool x.aside.items × AreNotAfter x.time x.stamps.items };
}

impl Point {
    /// The point where the names of the store have these values. No term is evaluated yet.
    pub fn new(alloc: Global, terms: &Terms, values: SharedValues) -> Result<Point, NoMemory>
        ensures values { IfOk result (λ x. x.values ≡ values) }
        ensures aside { IfOk result (λ x. x.aside ≡ []) }
        ensures point { IfOk result (IsPointOf terms.now) }
    {
        let (names, pool) = values.into_parts();
        let words = vec![in alloc; Word::new(1, 0); terms.len() as usize]?;
        let links = vec![in alloc; pool.zeros(); terms.len() as usize]?;
        let stamps = vec![in alloc; 0u64; terms.len() as usize]?;
        let limit = limit_for(pool.branch_count(), names.len());
        Ok(Point {
            names,
            aside: Vec::new(alloc),
            words,
            links,
            stamps,
            time: 1,
            pending: Vec::new(alloc),
            pool,
            limit,
        })
    }

    /// The values of the names.
    pub fn into_values(self) -> SharedValues
        ensures { result ≡ self.values }
    {
        let Point {
            names,
            aside: _aside,
            words: _words,
            links: _links,
            stamps: _stamps,
            time: _time,
            pending: _pending,
            pool,
            limit: _limit,
        } = self;
        SharedValues::from_parts(names, pool)
    }

    /// A copy of the values of the names.
    pub fn values(&self, alloc: Global) -> Result<SharedValues, NoMemory>
        ensures { IfOk result (λ v. v ≡ self.now.values) }
    {
        let mut pool = Pool::new(alloc)?;
        let mut copies = Copies::new(alloc, &self.pool)?;
        let slots = copy_slots(alloc, &mut pool, &self.pool, &mut copies, &self.names)?;
        Ok(SharedValues::from_parts(slots, pool))
    }

    /// What is shown of the value of a name.
    pub fn shown(&self, alloc: Global, place: usize) -> Result<Shown, NoMemory>
        requires { place < length self.now.values }
        ensures { IfOk result (IsShownAs (slice_index_or self.now.values place (number 0))) }
    {
        let slot = self.slot_of_name(place);
        let shown = shown_slot(alloc, &self.pool, slot)?;
        Ok(shown)
    }

    /// Copies the memories that are used into a pool of their own, where there are many others.
    pub fn let_go(&mut self, alloc: Global) -> Result<(), NoMemory>
        ensures values { self.new.values ≡ self.old.values }
        ensures aside { self.new.aside ≡ self.old.aside }
        ensures point { (g : Graph) → IsPointOf g self.old → IsPointOf g self.new }
    {
        if self.pool.branch_count() <= self.limit {
            return Ok(());
        }
        self.copy_used(alloc)
    }

    /// Copies the memories that are used into a pool of their own.
    fn copy_used(&mut self, alloc: Global) -> Result<(), NoMemory>
        ensures values { self.new.values ≡ self.old.values }
        ensures aside { self.new.aside ≡ self.old.aside }
        ensures point { (g : Graph) → IsPointOf g self.old → IsPointOf g self.new }
    {
        let mut pool = Pool::new(alloc)?;
        let mut copies = Copies::new(alloc, &self.pool)?;
        let names = copy_slots(alloc, &mut pool, &self.pool, &mut copies, &self.names)?;
        let aside = copy_slots(alloc, &mut pool, &self.pool, &mut copies, &self.aside)?;
        self.take_parts(names, aside, pool);
        Ok(())
    }

    /// Keeps the same values in another pool. No term counts as evaluated then.
    fn take_parts(&mut self, names: Vec<Slot>, aside: Vec<Slot>, pool: Pool)
        requires names { AreSlotsOf pool names.items }
        requires aside { AreSlotsOf pool aside.items }
        requires values { values_in pool names.items ≡ self.old.values }
        requires kept { values_in pool aside.items ≡ self.old.aside }
        ensures values { self.new.values ≡ self.old.values }
        ensures aside { self.new.aside ≡ self.old.aside }
        ensures point { (g : Graph) → IsPointOf g self.old → IsPointOf g self.new }
    {
        self.limit = limit_for(pool.branch_count(), names.len());
        self.names = names;
        self.aside = aside;
        self.pool = pool;
        let time = later(&mut self.stamps, self.time);
        self.time = time;
    }

    /// Evaluates a term, and those that it stands on, as far as they were not evaluated since the last change.
    fn demand(&mut self, terms: &Terms, id: TermId) -> Result<(), NoMemory>
        requires id { id.0 < length terms.now.nodes }
        requires point { IsPointOf terms.now self.old }
        requires fits { AreOfSorts terms.now.names self.old.values }
        ensures held { OnOk result (IsHeldAt terms.now self.new id.0) }
        ensures values { self.new.values ≡ self.old.values }
        ensures aside { self.new.aside ≡ self.old.aside }
        ensures point { IsPointOf terms.now self.new }
    {
        fill_term(
            terms,
            &self.names,
            &mut self.words,
            &mut self.links,
            &mut self.stamps,
            self.time,
            &mut self.pending,
            &mut self.pool,
            id,
        )
    }

    /// The value of a truth value, as 0 or 1, or of a word. A memory has no number: it gives 0.
    pub fn number(&mut self, terms: &Terms, id: TermId) -> Result<u128, NoMemory>
        requires id { id.0 < length terms.now.nodes }
        requires point { IsPointOf terms.now self.old }
        requires fits { AreOfSorts terms.now.names self.old.values }
        ensures number { IfOk result (λ n. n ≡ numeral_of (value_at terms.now self.old.values id.0)) }
        ensures sorted { OnOk result (HasSortOf (value_at terms.now self.old.values id.0) (sort_of (tree terms.now id.0))) }
        ensures values { self.new.values ≡ self.old.values }
        ensures aside { self.new.aside ≡ self.old.aside }
        ensures point { IsPointOf terms.now self.new }
    {
        self.demand(terms, id)?;
        let number = self.held_number(terms, id);
        Ok(number)
    }

    /// The number of a term that was evaluated.
    fn held_number(&self, terms: &Terms, id: TermId) -> u128
        requires id { id.0 < length terms.now.nodes }
        requires point { IsPointOf terms.now self.now }
        requires held { IsHeldAt terms.now self.now id.0 }
        ensures number { result ≡ numeral_of (value_at terms.now self.now.values id.0) }
        ensures sorted { HasSortOf (value_at terms.now self.now.values id.0) (sort_of (tree terms.now id.0)) }
    {
        let _ = terms;
        let word = self.words[id.0];
        word.value
    }

    /// The slot of a term that was evaluated.
    fn held_slot(&self, terms: &Terms, id: TermId) -> Slot
        requires id { id.0 < length terms.now.nodes }
        requires point { IsPointOf terms.now self.now }
        requires held { IsHeldAt terms.now self.now id.0 }
        ensures slot { IsSlotOf self.now.pool result }
        ensures value { value_in self.now.pool result ≡ value_at terms.now self.now.values id.0 }
        ensures sorted { HasSortOf (value_at terms.now self.now.values id.0) (sort_of (tree terms.now id.0)) }
    {
        let word = self.words[id.0];
        let link = self.links[id.0];
        slot_of_term(&self.pool, terms.sort(id), word, link)
    }

    /// The slot of a name.
    fn slot_of_name(&self, place: usize) -> Slot
        requires { place < length self.now.values }
        ensures slot { IsSlotOf self.now.pool result }
        ensures value { value_in self.now.pool result ≡ slice_index_or self.now.values place (number 0) }
    {
        let slot = self.names[place];
        slot
    }

    /// The slot of a value that was put aside.
    fn slot_aside(&self, from: usize) -> Slot
        requires { from < length self.now.aside }
        ensures slot { IsSlotOf self.now.pool result }
        ensures value { value_in self.now.pool result ≡ slice_index_or self.now.aside from (number 0) }
    {
        let slot = self.aside[from];
        slot
    }

    /// Puts the value of a slot aside.
    fn add_aside(&mut self, slot: Slot) -> Result<(), NoMemory>
        requires { IsSlotOf self.old.pool slot }
        ensures ok { OnOk result (self.new ≡ record self.old { aside = self.old.aside ++ value_in self.old.pool slot ∷ [] }) }
        ensures err { OnErr result (self.new ≡ self.old) }
    {
        self.aside.push(slot)?;
        Ok(())
    }

    /// Gives a name the value of a slot. No term counts as evaluated then.
    fn set_name(&mut self, place: usize, slot: Slot)
        requires place { place < length self.old.values }
        requires slot { IsSlotOf self.old.pool slot }
        ensures values { self.new.values ≡ slice_set self.old.values place (value_in self.old.pool slot) }
        ensures aside { self.new.aside ≡ self.old.aside }
        ensures point { (g : Graph) → IsPointOf g self.old → IsPointOf g self.new }
    {
        self.names[place] = slot;
        let time = later(&mut self.stamps, self.time);
        self.time = time;
    }

    /// The slot of a value of a sort.
    fn add_value(&mut self, value: &Value, sort: Sort) -> Result<Slot, NoMemory>
        requires in_range { IsTrue (is_sort (as_sort sort)) }
        requires sort { HasSort (as_value value.now) (as_sort sort) }
        ensures slot { IfOk result (IsSlotOf self.new.pool) }
        ensures value { IfOk result (λ s. value_in self.new.pool s ≡ as_value value.now) }
        ensures values { self.new.values ≡ self.old.values }
        ensures aside { self.new.aside ≡ self.old.aside }
        ensures point { (g : Graph) → IsPointOf g self.old → IsPointOf g self.new }
    {
        slot_of(&mut self.pool, value, sort)
    }

    /// Puts the value of a term aside.
    pub fn keep(&mut self, terms: &Terms, id: TermId) -> Result<(), NoMemory>
        requires id { id.0 < length terms.now.nodes }
        requires point { IsPointOf terms.now self.old }
        requires fits { AreOfSorts terms.now.names self.old.values }
        ensures aside { OnOk result (self.new.aside ≡ self.old.aside ++ value_at terms.now self.old.values id.0 ∷ []) }
        ensures sorted { OnOk result (HasSortOf (value_at terms.now self.old.values id.0) (sort_of (tree terms.now id.0))) }
        ensures values { self.new.values ≡ self.old.values }
        ensures point { IsPointOf terms.now self.new }
    {
        self.demand(terms, id)?;
        let slot = self.held_slot(terms, id);
        self.add_aside(slot)?;
        Ok(())
    }

    /// Puts the value of a name aside.
    pub fn keep_name(&mut self, place: usize) -> Result<(), NoMemory>
        requires { place < length self.old.values }
        ensures aside { OnOk result (self.new.aside ≡ self.old.aside ++ slice_index_or self.old.values place (number 0) ∷ []) }
        ensures values { self.new.values ≡ self.old.values }
        ensures point { (g : Graph) → IsPointOf g self.old → IsPointOf g self.new }
    {
        let slot = self.slot_of_name(place);
        self.add_aside(slot)?;
        Ok(())
    }

    /// How many values were put aside.
    pub fn kept(&self) -> usize
        ensures { result ≡ length self.now.aside }
    {
        self.aside.len()
    }

    /// Gives a name a value that was put aside.
    pub fn put(&mut self, place: usize, from: usize)
        requires place { place < length self.old.values }
        requires from { from < length self.old.aside }
        ensures values { self.new.values ≡ slice_set self.old.values place (slice_index_or self.old.aside from (number 0)) }
        ensures aside { self.new.aside ≡ self.old.aside }
        ensures point { (g : Graph) → IsPointOf g self.old → IsPointOf g self.new }
    {
        let slot = self.slot_aside(from);
        self.set_name(place, slot);
    }

    /// Forgets the values that were put aside, but for the first ones.
    pub fn forget(&mut self, len: usize)
        ensures values { self.new.values ≡ self.old.values }
        ensures aside { self.new.aside ≡ take len self.old.aside }
        ensures point { (g : Graph) → IsPointOf g self.old → IsPointOf g self.new }
    {
        self.aside.truncate(len);
    }

    /// Gives a name a value of a sort.
    pub fn set(&mut self, place: usize, value: &Value, sort: Sort) -> Result<(), NoMemory>
        requires place { place < length self.old.values }
        requires in_range { IsTrue (is_sort (as_sort sort)) }
        requires sort { HasSort (as_value value.now) (as_sort sort) }
        ensures values { OnOk result (self.new.values ≡ slice_set self.old.values place (as_value value.now)) }
        ensures aside { self.new.aside ≡ self.old.aside }
        ensures point { (g : Graph) → IsPointOf g self.old → IsPointOf g self.new }
        ensures err { OnErr result (self.new.values ≡ self.old.values) }
    {
        let slot = self.add_value(value, sort)?;
        self.set_name(place, slot);
        Ok(())
    }
}

/// A time after those of all stamps. Where there is none, the stamps are set to 0 and times begin again.
fn later(stamps: &mut Vec<u64>, time: u64) -> u64
    requires { AreNotAfter time stamps.old.items }
    ensures stamps { (k : ℕ) → stamp_at stamps.new.items k < result }
    ensures length { length stamps.new.items ≡ length stamps.old.items }
{
    match time.checked_add(1) {
        Some(next) => next,
        None => {
            set_to_0(stamps);
            1
        }
    }
}

/// Sets all stamps to 0.
fn set_to_0(stamps: &mut Vec<u64>)
    ensures stamps { (k : ℕ) → stamp_at stamps.new.items k ≡ 0 }
    ensures length { length stamps.new.items ≡ length stamps.old.items }
{
    for k in 0..stamps.len() {
        stamps[k] = 0;
    }
}

/// How many nodes a pool may have at least before it is copied.
const LEAST_LIMIT: usize = 4096;

/// How many nodes a pool may have before it is copied again, where so many of it are used by so many names: so many that the cost of a
/// copy is no more than that of the nodes that were made since the last one.
fn limit_for(used: usize, names: usize) -> usize {
    used.saturating_add(names)
        .saturating_mul(2)
        .saturating_add(LEAST_LIMIT)
}

/// The slot of a term by what is kept of it.
fn slot_of_term(pool: &Pool, sort: Sort, word: Word, link: Memory) -> Slot
    ensures slot { (v : meaning.Value) → IsHeldBy (Some (as_sort sort)) v word.width word.value → IsLinkTo pool.now (Some (as_sort sort)) v link → IsSlotOf pool.now result }
    ensures value { (v : meaning.Value) → IsHeldBy (Some (as_sort sort)) v word.width word.value → IsLinkTo pool.now (Some (as_sort sort)) v link → value_in pool.now result ≡ v }
{
    let _ = pool;
    match sort {
        Sort::Truth => Slot::Truth(word.value == 1),
        Sort::Word(_) => Slot::Number(word.value),
        Sort::Memory(depth, _) => Slot::Memory(depth, link),
    }
}
