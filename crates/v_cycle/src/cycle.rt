//! One cycle of a design: what its names settle to, and its registers after the clock's edge.

ghost use Rattle.std.specs.Prelude.{◌≡◌, ℕ, List, Some, None, IfOk};
ghost use Rattle.wb_values.specs.Value.{Value, numeral_of};
ghost use Rattle.wb_terms.specs.Environment.{AreOfSorts};
ghost use Rattle.v_design.specs.Seen.{input_values, parts_of, register_values};
ghost use Rattle.v_design.specs.Parts.{registers_of, inputs_of, registers_after, value_in};

use crate::chain::store_count;
use crate::changes::Changes;
use crate::copying::{push_copies, push_zeros};
use crate::following::follow;
use crate::setting::{set_next, set_numbers};
use std::alloc::Global;
use v_design::{Design, Inputs, Registers};
use wb_terms::{Env, Evaluated, NoMemory};

/// A design that is simulated: the registers, and the values of all terms in the cycle that was run last.
#[derive(Drop)]
pub struct Cycle {
    /// What the terms were evaluated at: the registers before the edge, and the inputs.
    env: Env,
    words: Evaluated,
    /// The registers after the edge.
    registers: Registers,
    /// What that edge changed.
    changes: Changes,
}

impl Cycle {
    ghost use Rattle.v_cycle.specs.Running.{IsCycleOf, IsRun, HasRun, registers_in};

    /// A design whose registers have these values. No cycle was run.
    pub fn new(alloc: Global, design: &Design, registers: &Registers) -> Result<Cycle, NoMemory>
        requires { AreOfSorts (registers_of (parts_of design.now)) (register_values registers.now) }
        ensures made { IfOk result (IsCycleOf (parts_of design.now)) }
        ensures registers { IfOk result (λ c. registers_in c ≡ register_values registers.now) }
    {
        let mut values = Vec::with_capacity(alloc, design.terms.name_count() as usize)?;
        push_copies(&mut values, &registers.values)?;
        push_zeros(&mut values, design.input_count())?;
        let mut first = Vec::with_capacity(alloc, design.register_count())?;
        push_copies(&mut first, &registers.values)?;
        let words = Evaluated::new(alloc, &design.terms)?;
        let stores = store_count(&design.terms);
        let changes = Changes::new(alloc, design.register_count(), stores)?;
        Ok(Cycle {
            env: Env { values },
            words,
            registers: Registers { values: first },
            changes,
        })
    }

    /// Runs a cycle: settles for the registers and these inputs, and takes the clock's edge. It takes no memory.
    pub fn cycle(&mut self, design: &Design, inputs: &Inputs)
        requires made { IsCycleOf (parts_of design.now) self.old }
        requires inputs { AreOfSorts (inputs_of (parts_of design.now)) (input_values inputs.now) }
        ensures made { IsCycleOf (parts_of design.now) self.new }
        ensures run { IsRun (parts_of design.now) self.new }
        ensures ran { HasRun (parts_of design.now) self.new (registers_in self.old) (input_values inputs.now) }
        ensures registers { registers_in self.new ≡ registers_after (parts_of design.now) (registers_in self.old) (input_values inputs.now) }
    {
        follow(&mut self.env.values, &self.registers.values, &self.changes);
        self.changes.clear();
        let first = self.registers.values.len();
        set_numbers(&mut self.env.values, first, &inputs.numbers);
        self.words.evaluate(&design.terms, &self.env);
        set_next(
            &mut self.registers.values,
            &mut self.changes,
            &design.terms,
            &self.env,
            &self.words,
            &design.next,
        );
    }

    /// The number of what a net or variable settled to in the last cycle, by its dotted name. A memory has none: it gives 0.
    pub fn value(&self, design: &Design, path: &str) -> u128
        requires { IsRun (parts_of design.now) self.now }
        ensures term { (rs is : List Value) (id : ℕ) → HasRun (parts_of design.now) self.now rs is → (parts_of design.now).settled path.now ≡ Some id
            → result ≡ numeral_of (value_in (parts_of design.now) rs is id) }
        ensures none { (parts_of design.now).settled path.now ≡ None → result ≡ 0 }
    {
        match design.settled(path) {
            Some(id) => self.words.number(&design.terms, &self.env, id),
            None => 0,
        }
    }

    /// The registers: those after the edge of the last cycle, or the first ones.
    pub fn registers(&self) -> &Registers
        ensures { register_values result.now ≡ registers_in self.now }
    {
        &self.registers
    }

    /// What the terms were evaluated at in the last cycle: the registers before the edge and the inputs, in the order of the store's names.
    pub fn env(&self) -> &Env
        ensures { result.now ≡ self.now.env }
    {
        &self.env
    }

    /// The values of all terms in the last cycle.
    pub fn words(&self) -> &Evaluated
        ensures { result.now ≡ self.now.words }
    {
        &self.words
    }
}
