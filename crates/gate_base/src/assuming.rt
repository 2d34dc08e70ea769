//! A question about a circuit asked of a smaller one: what is known where the answer is yes is put in as constants.

ghost use Rattle.std.specs.Prelude.{◌≡◌, ◌<◌, true, List, Bool, length, slice_set, not, ◌&&◌, cond, Some, IfOk, OnOk, IfSome};
ghost use Rattle.sat_base.specs.declared.literals.Lit.{Lit as Literals};
ghost use Rattle.sat_base.specs.Formula.{value, variable_value};
ghost use Rattle.gate_base.specs.Circuit.{Circuit, size, IsKnown, FollowsCircuit, bit_value, gate_value, exactly_one};
ghost use Rattle.gate_base.specs.Clauses.{IsGateBelow};
ghost use Rattle.gate_base.specs.declared.bits.Bit.{Bit as Bits};
ghost use Rattle.gate_base.specs.declared.bits.Bit.TheVariants.{Literal};
ghost use Rattle.gate_base.specs.Assumed.{AreFacts, IsFact, HasWorth, IsCopying, IsAsked, IsSameWhere, IsLike, bit_at, truth_at};

use crate::bits::{Bit, Gate};
use crate::building::Builder;
use crate::ordering::order_of;
use sat_base::{Lit, NoMemory};
use std::alloc::Global;

/// A circuit, and a bit of it that is to be true.
#[derive(Drop)]
pub struct Asked {
    pub circuit: Builder,
    pub wanted: Bit,
}

/// A copy of a circuit that is being made.
#[derive(Drop)]
pub(crate) struct Copier {
    pub fresh: Builder,
    /// The copy of each variable, once it is there.
    pub copies: Vec<Option<Bit>>,
    /// The truth values of variables of the copy where `all` is true, if they are known.
    pub worth: Vec<Option<bool>>,
    /// Whether all facts hold that were put in.
    pub all: Bit,
}

/// The same question of a circuit over the same inputs: what is known where the wanted bit is true is put in as constants. It is the given
/// one where it cannot be copied.
pub fn assumed(alloc: Global, circuit: Builder, wanted: Bit) -> Result<Asked, NoMemory>
    requires { IsKnown circuit wanted }
    ensures { IfOk result (λ q. IsAsked circuit wanted q.circuit q.wanted) }
{
    let found = match wanted {
        Bit::Literal(literal) => copied(alloc, &circuit, literal)?,
        Bit::Constant(_) => None,
    };
    match found {
        Some(asked) => Ok(asked),
        None => Ok(unchanged(circuit, wanted)),
    }
}

/// The question as it is.
fn unchanged(circuit: Builder, wanted: Bit) -> Asked
    requires { IsKnown circuit wanted }
    ensures { IsAsked circuit wanted result.circuit result.wanted }
{
    circuit.is_determined();
    Asked { circuit, wanted }
}

/// The same question of a copy, if all that it stands on was copied.
fn copied(alloc: Global, circuit: &Builder, wanted: Lit) -> Result<Option<Asked>, NoMemory>
    requires { wanted.var < size circuit.now }
    ensures { IfOk result (λ o. IfSome o (λ q. IsAsked circuit.now (Literal wanted) q.circuit q.wanted)) }
{
    circuit.is_determined();
    let vars = circuit.vars()?;
    let facts = facts_of(alloc, circuit, wanted, vars)?;
    let order = order_of(alloc, circuit, &facts, vars)?;
    let mut copier = begin(alloc, circuit, wanted, vars)?;
    for place in 0..order.len() {
        if !take_in(circuit, &mut copier, &facts, wanted, order[place])? {
            return Ok(None);
        }
    }
    finish(alloc, circuit, copier, wanted)
}

/// The truth values of variables where the wanted literal is true, if they are known: both operands of a gate that gives whether both are
/// true are so where it is.
fn facts_of(
    alloc: Global,
    circuit: &Builder,
    wanted: Lit,
    vars: usize,
) -> Result<Vec<Option<bool>>, NoMemory>
    requires vars { vars ≡ size circuit.now }
    requires wanted { wanted.var < vars }
    ensures { IfOk result (λ facts. AreFacts circuit.now wanted facts.items) }
{
    let mut facts = vec![in alloc; None; vars]?;
    facts[wanted.var as usize] = Some(!wanted.negative);
    let count = circuit.gate_count();
    for done in 0..count {
        let truth = facts[vars - 1 - done];
        tell_operands(&mut facts, circuit.gate(count - 1 - done), truth);
    }
    Ok(facts)
}

/// Notes what the truth value of a gate, if it is known, says of its operands.
fn tell_operands(facts: &mut Vec<Option<bool>>, gate: Gate, truth: Option<bool>)
    requires { IsGateBelow (length facts.old.items) gate }
    ensures { (c : Circuit) (wanted : Literals) → AreFacts c wanted facts.old.items
        → ((b : Bool) → truth ≡ Some b → (w : List Bool) → FollowsCircuit w c → value w wanted ≡ true → gate_value w gate ≡ b)
        → AreFacts c wanted facts.new.items }
{
    if truth == Some(true) {
        tell_both(facts, gate);
    }
}

/// Notes what it says of the operands that a gate gives true.
fn tell_both(facts: &mut Vec<Option<bool>>, gate: Gate)
    requires { IsGateBelow (length facts.old.items) gate }
    ensures { (c : Circuit) (wanted : Literals) → AreFacts c wanted facts.old.items
        → ((w : List Bool) → FollowsCircuit w c → value w wanted ≡ true → gate_value w gate ≡ true) → AreFacts c wanted facts.new.items }
{
    match gate {
        Gate::And(x, y) => {
            tell(facts, x);
            tell(facts, y);
        }
        _ => {}
    }
}

/// Notes that a literal is true.
fn tell(facts: &mut Vec<Option<bool>>, literal: Lit)
    requires { literal.var < length facts.old.items }
    ensures { facts.new.items ≡ slice_set facts.old.items literal.var (Some (not literal.negative)) }
{
    facts[literal.var as usize] = Some(!literal.negative);
}

/// A copy of no gate.
fn begin(alloc: Global, circuit: &Builder, wanted: Lit, vars: usize) -> Result<Copier, NoMemory>
    ensures { IfOk result (IsCopying circuit.now wanted) }
{
    let worth = vec![in alloc; None; vars]?;
    let copies = vec![in alloc; None; vars]?;
    Ok(Copier {
        fresh: Builder::new(alloc, circuit.inputs()),
        copies,
        worth,
        all: Bit::Constant(true),
    })
}

/// Copies a variable, and puts in what is known of it. It fails where the copy of an operand is not there.
fn take_in(
    circuit: &Builder,
    copier: &mut Copier,
    facts: &[Option<bool>],
    wanted: Lit,
    var: usize,
) -> Result<bool, NoMemory>
    requires facts { AreFacts circuit.now wanted facts.now }
    requires copying { IsCopying circuit.now wanted copier.old }
    ensures { OnOk result (IsCopying circuit.now wanted copier.new) }
{
    if var >= copier.copies.len() || var >= facts.len() {
        return Ok(false);
    }
    let Some(bit) = copy_variable(circuit, copier, wanted, var)? else {
        return Ok(false);
    };
    put_copy(circuit, copier, wanted, var, bit);
    if let Some(truth) = facts[var] {
        note(circuit, copier, wanted, var, truth)?;
    }
    Ok(true)
}

/// Keeps the copy of a variable.
fn put_copy(circuit: &Builder, copier: &mut Copier, wanted: Lit, var: usize, bit: Bit)
    requires copying { IsCopying circuit.now wanted copier.old }
    requires like { IsLike circuit.now copier.old.fresh copier.old.all bit (λ w. variable_value w var) }
    ensures { IsCopying circuit.now wanted copier.new }
{
    if var < copier.copies.len() {
        copier.copies[var] = Some(bit);
    }
}

/// The copy of a variable of the circuit.
fn copy_variable(
    circuit: &Builder,
    copier: &mut Copier,
    wanted: Lit,
    var: usize,
) -> Result<Option<Bit>, NoMemory>
    requires copying { IsCopying circuit.now wanted copier.old }
    ensures copying { OnOk result (IsCopying circuit.now wanted copier.new) }
    ensures like { IfOk result (λ o. IfSome o (λ b. IsLike circuit.now copier.new.fresh copier.new.all b (λ w. variable_value w var))) }
{
    let inputs = circuit.inputs() as usize;
    if var < inputs {
        return Ok(Some(Bit::Literal(Lit {
            var: var as u64,
            negative: false,
        })));
    }
    if var - inputs >= circuit.gate_count() {
        return Ok(None);
    }
    match circuit.gate(var - inputs) {
        Gate::And(x, y) => copy_and(circuit, copier, wanted, x, y),
        Gate::Xor(x, y) => copy_xor(circuit, copier, wanted, x, y),
        Gate::Ite(condition, x, y) => copy_ite(circuit, copier, wanted, condition, x, y),
    }
}

/// The copy of whether both are true.
fn copy_and(
    circuit: &Builder,
    copier: &mut Copier,
    wanted: Lit,
    x: Lit,
    y: Lit,
) -> Result<Option<Bit>, NoMemory>
    requires copying { IsCopying circuit.now wanted copier.old }
    ensures copying { OnOk result (IsCopying circuit.now wanted copier.new) }
    ensures like { IfOk result (λ o. IfSome o (λ b. IsLike circuit.now copier.new.fresh copier.new.all b (λ w. value w x && value w y))) }
{
    let Some(first) = copy_of(copier, x) else {
        return Ok(None);
    };
    let Some(second) = copy_of(copier, y) else {
        return Ok(None);
    };
    let bit = copier.fresh.and(first, second)?;
    Ok(Some(bit))
}

/// The copy of whether exactly one is true.
fn copy_xor(
    circuit: &Builder,
    copier: &mut Copier,
    wanted: Lit,
    x: Lit,
    y: Lit,
) -> Result<Option<Bit>, NoMemory>
    requires copying { IsCopying circuit.now wanted copier.old }
    ensures copying { OnOk result (IsCopying circuit.now wanted copier.new) }
    ensures like { IfOk result (λ o. IfSome o (λ b. IsLike circuit.now copier.new.fresh copier.new.all b (λ w. exactly_one (value w x) (value w y)))) }
{
    let Some(first) = copy_of(copier, x) else {
        return Ok(None);
    };
    let Some(second) = copy_of(copier, y) else {
        return Ok(None);
    };
    let bit = copier.fresh.xor(first, second)?;
    Ok(Some(bit))
}

/// The copy of the second where the first is true, else the third.
fn copy_ite(
    circuit: &Builder,
    copier: &mut Copier,
    wanted: Lit,
    condition: Lit,
    x: Lit,
    y: Lit,
) -> Result<Option<Bit>, NoMemory>
    requires copying { IsCopying circuit.now wanted copier.old }
    ensures copying { OnOk result (IsCopying circuit.now wanted copier.new) }
    ensures like { IfOk result (λ o. IfSome o (λ b. IsLike circuit.now copier.new.fresh copier.new.all b (λ w. cond (value w condition) (value w x) (value w y)))) }
{
    let Some(chosen) = copy_of(copier, condition) else {
        return Ok(None);
    };
    let Some(first) = copy_of(copier, x) else {
        return Ok(None);
    };
    let Some(second) = copy_of(copier, y) else {
        return Ok(None);
    };
    let bit = copier.fresh.ite(chosen, first, second)?;
    Ok(Some(bit))
}

/// The copy of a literal, if its variable was copied.
fn copy_of(copier: &Copier, literal: Lit) -> Option<Bit>
    ensures { IfSome result (λ b. (c : Circuit) (wanted : Literals) → IsCopying c wanted copier.now
        → IsLike c copier.now.fresh copier.now.all b (λ w. value w literal)) }
{
    let bit = kept_copy(&copier.copies, literal.var)?;
    Some(settled(&copier.worth, bit.negated_if(literal.negative)))
}

/// The copy of a variable, if it is there.
fn kept_copy(copies: &[Option<Bit>], var: u64) -> Option<Bit>
    ensures { result ≡ bit_at copies.now var }
{
    match copies.get(var as usize) {
        Some(bit) => *bit,
        None => None,
    }
}

/// A constant in place of a bit whose truth value is known.
fn settled(worth: &[Option<bool>], bit: Bit) -> Bit
    ensures { (d : Circuit) (all : Bits) → HasWorth d all worth.now → IsKnown d bit → IsSameWhere d all result bit }
{
    match bit {
        Bit::Constant(_) => bit,
        Bit::Literal(literal) => match known_truth(worth, literal.var) {
            Some(truth) => Bit::Constant(truth).negated_if(literal.negative),
            None => bit,
        },
    }
}

/// The truth value of a variable, if it is known.
fn known_truth(worth: &[Option<bool>], var: u64) -> Option<bool>
    ensures { result ≡ truth_at worth.now var }
{
    match worth.get(var as usize) {
        Some(truth) => *truth,
        None => None,
    }
}

/// Puts in that a variable has a truth value where the wanted literal is true.
fn note(
    circuit: &Builder,
    copier: &mut Copier,
    wanted: Lit,
    var: usize,
    truth: bool,
) -> Result<(), NoMemory>
    requires copying { IsCopying circuit.now wanted copier.old }
    requires fact { IsFact circuit.now wanted var truth }
    ensures { OnOk result (IsCopying circuit.now wanted copier.new) }
{
    let literal = Lit {
        var: var as u64,
        negative: !truth,
    };
    let Some(bit) = copy_of(copier, literal) else {
        return Ok(());
    };
    copier.all = copier.fresh.and(copier.all, bit)?;
    put_worth(&mut copier.worth, bit);
    Ok(())
}

/// Keeps that a bit is true.
fn put_worth(worth: &mut Vec<Option<bool>>, bit: Bit)
    ensures { (d : Circuit) (all : Bits) → HasWorth d all worth.old.items
        → ((u : List Bool) → FollowsCircuit u d → bit_value u all ≡ true → bit_value u bit ≡ true) → HasWorth d all worth.new.items }
{
    if let Bit::Literal(literal) = bit {
        let var = literal.var as usize;
        if var < worth.len() {
            worth[var] = Some(!literal.negative);
        }
    }
}

/// The question of the copy: all facts hold, and the copy of the wanted literal is true. Where that is never so, no gate is asked.
fn finish(
    alloc: Global,
    circuit: &Builder,
    copier: Copier,
    wanted: Lit,
) -> Result<Option<Asked>, NoMemory>
    requires { IsCopying circuit.now wanted copier }
    ensures { IfOk result (λ o. IfSome o (λ q. IsAsked circuit.now (Literal wanted) q.circuit q.wanted)) }
{
    circuit.is_determined();
    let Some(own) = copy_of(&copier, wanted) else {
        return Ok(None);
    };
    let Copier {
        mut fresh,
        copies: _,
        worth: _,
        all,
    } = copier;
    let bit = fresh.and(all, own)?;
    fresh.is_determined();
    if bit == Bit::Constant(false) {
        return Ok(Some(Asked {
            circuit: Builder::new(alloc, circuit.inputs()),
            wanted: Bit::Constant(false),
        }));
    }
    Ok(Some(Asked {
        circuit: fresh,
        wanted: bit,
    }))
}
