//! Lemmas and logs: the steps of a proof by unit propagation.
ghost use Rattle.std.specs.Prelude.{◌≡◌, ◌<◌, [], ◌∷◌, ◌++◌, length, map, Some, slice_get, OnOk, OnErr, IfOk, IsTrue, ◌↔◌};
ghost use Rattle.sat_base.specs.declared.logs.Lemma.{Lemma};
ghost use Rattle.sat_base.specs.Codes.{code_of, literal_of};
ghost use Rattle.sat_base.specs.Steps.{lemma_in, IsWithin, IsGrown};

use crate::clauses::{Clause, Hints};
use crate::codes::{decode, encode};
use crate::literals::Lit;
use crate::memory::NoMemory;
use std::alloc::Global;
use std::marker::Model;

/// A step of a log: a clause, and the numbers of the earlier clauses from which unit propagation shows
/// it (a line of an LRAT file without RAT hints). The formula's clauses are numbered from 0, and the
/// lemmas go on from there.
#[derive(Debug, Drop)]
pub struct Lemma {
    pub lits: Clause,
    pub hints: Hints,
}

// Where the literals of a step begin in the buffer of codes and where they end, and the same of its hints.
#[derive(Clone, Copy, Debug)]
struct Step {
    start: u32,
    end: u32,
    first_hint: u32,
    end_hint: u32,
}

/// A list of lemmas. Its steps are numbered from 0. They lie in two buffers of 32-bit numbers: the codes of
/// their literals, and their hints.
#[derive(Debug, Drop)]
pub struct Log {
    codes: Vec<u32>,
    hints: Vec<u32>,
    steps: Vec<Step>,
}

impl Model for Log {
    ghost use Rattle.std.specs.Prelude.{List, All, map};
    ghost use Rattle.sat_base.specs.declared.logs.Lemma.{Lemma};
    ghost use Rattle.sat_base.specs.Steps.{lemma_in, IsWithin};

    ghost Value = { List Lemma };

    ghost view = { λ log. map (lemma_in log.codes.items log.hints.items) log.steps.items };

    ghost invariant = { λ log. All (IsWithin log.codes.items log.hints.items) log.steps.items };
}

impl Log {
    /// The empty log, which takes no memory.
    pub fn new(alloc: Global) -> Self
        ensures { result ≡ [] }
    {
        Log {
            codes: Vec::new(alloc),
            hints: Vec::new(alloc),
            steps: Vec::new(alloc),
        }
    }

    /// Adds a step at the end. There is no memory for variables from 2^31 on, hints from 2^32 on, or more
    /// than 2^32 literals or hints in all.
    pub fn push(&mut self, lemma: Lemma) -> Result<(), NoMemory>
        ensures ok { OnOk result (self.new ≡ self.old ++ lemma ∷ []) }
        ensures err { OnErr result (self.new ≡ self.old) }
    {
        let lits = lemma.lits.as_slice();
        let numbers = lemma.hints.as_slice();
        let step = write(&mut self.codes, &mut self.hints, lits, numbers)?;
        self.steps.push(step)?;
        Ok(())
    }

    /// How many steps it has.
    pub fn len(&self) -> usize
        ensures { result ≡ length self.now }
    {
        self.steps.len()
    }

    /// Whether it has no step.
    pub fn is_empty(&self) -> bool
        ensures { IsTrue result ↔ (self.now ≡ []) }
    {
        self.steps.is_empty()
    }

    /// The literals of step `k`, by their codes.
    #[inline]
    pub fn codes(&self, k: usize) -> &[u32]
        requires { k < length self.now }
        ensures { (s : Lemma) → slice_get self.now k ≡ Some s → map literal_of result.now ≡ s.lits }
    {
        let step = self.steps[k];
        &self.codes[step.start as usize..step.end as usize]
    }

    /// The hints of step `k`.
    #[inline]
    pub fn hints(&self, k: usize) -> &[u32]
        requires { k < length self.now }
        ensures { (s : Lemma) → slice_get self.now k ≡ Some s → result.now ≡ s.hints }
    {
        let step = self.steps[k];
        &self.hints[step.first_hint as usize..step.end_hint as usize]
    }

    /// The literals of step `k`.
    pub fn lits(&self, alloc: Global, k: usize) -> Result<Clause, NoMemory>
        requires { k < length self.now }
        ensures { IfOk result (λ c. (s : Lemma) → slice_get self.now k ≡ Some s → c ≡ s.lits) }
    {
        let lits = decode_all(alloc, self.codes(k))?;
        Ok(Clause::from_vec(lits))
    }
}

// The literals of these codes.
fn decode_all(alloc: Global, codes: &[u32]) -> Result<Vec<Lit>, NoMemory>
    ensures { IfOk result (λ lits. lits.items ≡ map literal_of codes.now) }
{
    let mut lits = Vec::with_capacity(alloc, codes.len())?;
    for code in codes {
        lits.push(decode(*code))?;
    }
    Ok(lits)
}

// Writes the literals and the hints of a step at the ends of the buffers. Where that fails, the buffers may
// have grown.
fn write(
    codes: &mut Vec<u32>,
    hints: &mut Vec<u32>,
    lits: &[Lit],
    numbers: &[u64],
) -> Result<Step, NoMemory>
    ensures codes { IsGrown codes.old.items codes.new.items }
    ensures hints { IsGrown hints.old.items hints.new.items }
    ensures step { IfOk result (λ s. IsWithin codes.new.items hints.new.items s
        × (lemma_in codes.new.items hints.new.items s ≡ record { lits = lits.now; hints = numbers.now })) }
{
    let start = codes.len();
    let first_hint = hints.len();
    push_codes(codes, lits)?;
    push_numbers(hints, numbers)?;
    let step = step_of(start, codes.len(), first_hint, hints.len())?;
    Ok(step)
}

// The step between these places, where 32 bits do for each.
fn step_of(start: usize, end: usize, first_hint: usize, end_hint: usize) -> Result<Step, NoMemory>
    ensures { IfOk result (λ s. (s.start ≡ start) × (s.end ≡ end) × (s.first_hint ≡ first_hint) × (s.end_hint ≡ end_hint)) }
{
    Ok(Step {
        start: narrow(start as u64)?,
        end: narrow(end as u64)?,
        first_hint: narrow(first_hint as u64)?,
        end_hint: narrow(end_hint as u64)?,
    })
}

// The number, where 32 bits do for it.
fn narrow(number: u64) -> Result<u32, NoMemory>
    ensures { IfOk result (λ n. n ≡ number) }
{
    if number > u32::MAX as u64 {
        return Err(NoMemory);
    }
    Ok(number as u32)
}

// Adds the codes of the literals at the end.
fn push_codes(codes: &mut Vec<u32>, lits: &[Lit]) -> Result<(), NoMemory>
    ensures grown { IsGrown codes.old.items codes.new.items }
    ensures codes { OnOk result (codes.new.items ≡ codes.old.items ++ map code_of lits.now) }
{
    for lit in lits {
        codes.push(code(*lit)?)?;
    }
    Ok(())
}

// The code of a literal, where 32 bits do for it.
fn code(lit: Lit) -> Result<u32, NoMemory>
    ensures { IfOk result (λ n. n ≡ code_of lit) }
{
    if lit.var >= 1 << 31 {
        return Err(NoMemory);
    }
    Ok(encode(lit))
}

// Adds the numbers at the end.
fn push_numbers(hints: &mut Vec<u32>, numbers: &[u64]) -> Result<(), NoMemory>
    ensures grown { IsGrown hints.old.items hints.new.items }
    ensures numbers { OnOk result (hints.new.items ≡ hints.old.items ++ numbers.now) }
{
    for number in numbers {
        hints.push(narrow(*number)?)?;
    }
    Ok(())
}
