//! The builder of a circuit: each call gives a bit with a stated value, and adds a gate only where no constant, no operand and no earlier gate is the answer.

ghost use Rattle.std.specs.Prelude.{◌≡◌, ◌+◌, ◌<◌, ◌^◌, ℕ, List, Bool, [], length, not, ◌&&◌, ◌||◌, cond, false, slice_get, Some, IfOk, IfSome, OnErr};
ghost use Rattle.gate_base.specs.Circuit.{size, bit_value, exactly_one, IsKnown, Grows, Gives, IsDetermined, IsFormulaOf};
ghost use Rattle.gate_base.specs.Clauses.{IsGateBelow, AreOrdered, clauses_from};
ghost use Rattle.gate_base.specs.Circuit.{gate_value};
ghost use Rattle.gate_base.specs.declared.bits.Bit.TheVariants.{Literal};

use crate::bits::{Bit, Gate};
use crate::clauses::{push_bit, push_gate};
use crate::keys::GateKey;
use sat_base::{Clause, Cnf, Lit, NoMemory};
use std::alloc::Global;
use std::collections::BTreeMap;
use std::marker::Model;

/// A circuit that grows. Its first variables are inputs, and each gate has a variable behind them. Contracts see the number of the inputs and
/// the list of the gates.
#[derive(Drop)]
pub struct Builder {
    inputs: u64,
    gates: Vec<Gate>,
    /// Where to look for a gate. What the table says is compared with the gates themselves, so nothing has to hold of it.
    places: BTreeMap<GateKey, usize>,
}

impl Model for Builder {
    ghost use Rattle.gate_base.specs.Circuit.{Circuit};
    ghost use Rattle.gate_base.specs.Clauses.{AreOrdered};

    ghost Value = { Circuit };

    ghost view = { λ b. record { inputs = b.inputs; gates = b.gates.items } };

    ghost invariant = { λ b. AreOrdered b.inputs b.gates.items };
}

impl Builder {
    /// A circuit with so many inputs and no gate. It takes no memory.
    pub fn new(alloc: Global, inputs: u64) -> Builder
        ensures { result ≡ record { inputs = inputs; gates = [] } }
    {
        Builder {
            inputs,
            gates: Vec::new(alloc),
            places: BTreeMap::new(alloc),
        }
    }

    /// A bit for a gate: that of the same gate where there is one, else that of a new one. Operands whose order does not count may stand
    /// the other way round.
    fn add(&mut self, gate: Gate) -> Result<Bit, NoMemory>
        requires { IsGateBelow (size self.old) gate }
        ensures bit { IfOk result (λ b. Gives self.new b (λ w. gate_value w gate)) }
        ensures grows { Grows self.old self.new }
        ensures err { OnErr result (self.new ≡ self.old) }
    {
        let ordered = gate.in_order();
        if let Some(place) = self.place_of(ordered) {
            return self.bit_at(place);
        }
        self.put(ordered)
    }

    /// A place among the gates where the same gate stands.
    fn place_of(&self, gate: Gate) -> Option<usize>
        ensures { IfSome result (λ place. slice_get self.now.gates place ≡ Some gate) }
    {
        let place = *self.places.get(&GateKey::of(gate))?;
        let found = *self.gates.get(place)?;
        if found == gate { Some(place) } else { None }
    }

    /// The bit of the gate at a place.
    fn bit_at(&self, place: usize) -> Result<Bit, NoMemory>
        ensures { IfOk result (λ b. b ≡ Literal (record { var = self.now.inputs + place; negative = false })) }
    {
        let Some(var) = self.inputs.checked_add(place as u64) else {
            return Err(NoMemory);
        };
        Ok(Bit::Literal(Lit {
            var,
            negative: false,
        }))
    }

    /// A bit for a new gate.
    fn put(&mut self, gate: Gate) -> Result<Bit, NoMemory>
        requires { IsGateBelow (size self.old) gate }
        ensures bit { IfOk result (λ b. Gives self.new b (λ w. gate_value w gate)) }
        ensures grows { Grows self.old self.new }
        ensures err { OnErr result (self.new ≡ self.old) }
    {
        let place = self.gates.len();
        let bit = self.bit_at(place)?;
        // The table first: where the gate then finds no memory, the circuit stays as it was, and the entry is never taken.
        self.places.insert(GateKey::of(gate), place)?;
        self.gates.push(gate)?;
        Ok(bit)
    }

    /// Whether both bits are true.
    pub fn and(&mut self, x: Bit, y: Bit) -> Result<Bit, NoMemory>
        requires x { IsKnown self.old x }
        requires y { IsKnown self.old y }
        ensures bit { IfOk result (λ b. Gives self.new b (λ w. bit_value w x && bit_value w y)) }
        ensures grows { Grows self.old self.new }
        ensures err { OnErr result (self.new ≡ self.old) }
    {
        match (x, y) {
            (Bit::Constant(true), other) | (other, Bit::Constant(true)) => Ok(other),
            (Bit::Constant(false), _) | (_, Bit::Constant(false)) => Ok(Bit::Constant(false)),
            (Bit::Literal(first), Bit::Literal(second)) => {
                if first == second {
                    Ok(x)
                } else if first == second.negated() {
                    Ok(Bit::Constant(false))
                } else {
                    self.add(Gate::And(first, second))
                }
            }
        }
    }

    /// Whether a bit is true at least.
    pub fn or(&mut self, x: Bit, y: Bit) -> Result<Bit, NoMemory>
        requires x { IsKnown self.old x }
        requires y { IsKnown self.old y }
        ensures bit { IfOk result (λ b. Gives self.new b (λ w. bit_value w x || bit_value w y)) }
        ensures grows { Grows self.old self.new }
        ensures err { OnErr result (self.new ≡ self.old) }
    {
        let neither = self.and(x.negated(), y.negated())?;
        Ok(neither.negated())
    }

    /// Whether exactly one of the bits is true.
    pub fn xor(&mut self, x: Bit, y: Bit) -> Result<Bit, NoMemory>
        requires x { IsKnown self.old x }
        requires y { IsKnown self.old y }
        ensures bit { IfOk result (λ b. Gives self.new b (λ w. exactly_one (bit_value w x) (bit_value w y))) }
        ensures grows { Grows self.old self.new }
        ensures err { OnErr result (self.new ≡ self.old) }
    {
        match (x, y) {
            (Bit::Constant(value), _) => Ok(y.negated_if(value)),
            (_, Bit::Constant(value)) => Ok(x.negated_if(value)),
            (Bit::Literal(first), Bit::Literal(second)) => {
                if first == second {
                    Ok(Bit::Constant(false))
                } else if first == second.negated() {
                    Ok(Bit::Constant(true))
                } else {
                    self.add(Gate::Xor(first, second))
                }
            }
        }
    }

    /// The second bit where the first is true, else the third.
    pub fn ite(&mut self, condition: Bit, x: Bit, y: Bit) -> Result<Bit, NoMemory>
        requires condition { IsKnown self.old condition }
        requires x { IsKnown self.old x }
        requires y { IsKnown self.old y }
        ensures bit { IfOk result (λ b. Gives self.new b (λ w. cond (bit_value w condition) (bit_value w x) (bit_value w y))) }
        ensures grows { Grows self.old self.new }
        ensures err { OnErr result (self.new ≡ self.old) }
    {
        match (condition, x, y) {
            (Bit::Constant(true), _, _) => Ok(x),
            (Bit::Constant(false), _, _) => Ok(y),
            (_, Bit::Constant(true), _) => self.or(condition, y),
            (_, Bit::Constant(false), _) => self.and(condition.negated(), y),
            (_, _, Bit::Constant(true)) => self.or(condition.negated(), x),
            (_, _, Bit::Constant(false)) => self.and(condition, x),
            (Bit::Literal(chosen), Bit::Literal(first), Bit::Literal(second)) => {
                if first == second {
                    Ok(x)
                } else {
                    self.add(Gate::Ite(chosen, first, second))
                }
            }
        }
    }

    /// The number of inputs.
    pub(crate) fn inputs(&self) -> u64
        ensures { result ≡ self.now.inputs }
    {
        self.inputs
    }

    /// The number of gates.
    pub(crate) fn gate_count(&self) -> usize
        ensures { result ≡ length self.now.gates }
    {
        self.gates.len()
    }

    /// The number of variables.
    pub(crate) fn vars(&self) -> Result<usize, NoMemory>
        ensures { IfOk result (λ n. n ≡ size self.now) }
    {
        match self.inputs.checked_add(self.gates.len() as u64) {
            Some(vars) => Ok(vars as usize),
            None => Err(NoMemory),
        }
    }

    /// The gate at a place.
    pub(crate) fn gate(&self, place: usize) -> Gate
        requires { place < length self.now.gates }
        ensures here { slice_get self.now.gates place ≡ Some result }
        ensures below { IsGateBelow (self.now.inputs + place) result }
    {
        self.gates[place]
    }

    /// Each assignment of the inputs goes on to one that follows the circuit, and each gate stands on variables before its own.
    pub(crate) fn is_determined(&self)
        ensures determined { IsDetermined self.now }
        ensures ordered { AreOrdered self.now.inputs self.now.gates }
    {
        let _ = &self.inputs;
    }

    /// The formula that says what every gate gives, and that a bit is true.
    pub fn into_cnf(self, alloc: Global, wanted: Bit) -> Result<Cnf, NoMemory>
        requires { IsKnown self wanted }
        ensures formula { IfOk result (IsFormulaOf self wanted) }
        ensures determined { IsDetermined self }
    {
        let Some(vars) = self.inputs.checked_add(self.gates.len() as u64) else {
            return Err(NoMemory);
        };
        let mut clauses = gate_clauses(alloc, self.inputs, self.gates.as_slice())?;
        push_bit(alloc, &mut clauses, wanted)?;
        match Cnf::new(vars, clauses) {
            Ok(cnf) => Ok(cnf),
            Err(_) => unreachable!(),
        }
    }
}

/// The clauses of gates whose variables begin with `first`.
fn gate_clauses(alloc: Global, first: u64, gates: &[Gate]) -> Result<Vec<Clause>, NoMemory>
    requires { first + length gates.now < 2 ^ 64 }
    ensures { IfOk result (λ clauses. clauses.items ≡ clauses_from first gates.now) }
{
    let mut clauses = Vec::with_capacity(alloc, gates.len())?;
    let mut var = first;
    for gate in gates {
        let gives = Lit {
            var,
            negative: false,
        };
        push_gate(alloc, &mut clauses, gives, *gate)?;
        var += 1;
    }
    Ok(clauses)
}
