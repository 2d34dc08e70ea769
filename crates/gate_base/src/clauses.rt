//! The clauses of gates, put behind one another.

ghost use Rattle.std.specs.Prelude.{◌≡◌, [], ◌∷◌, ◌++◌, OnOk};
ghost use Rattle.gate_base.specs.Clauses.{clauses_for, clauses_of_bit};

use crate::bits::{Bit, Gate};
use sat_base::{Clause, Lit, NoMemory};
use std::alloc::Global;

/// Puts the clauses behind the others that make a literal equal to what a gate gives.
pub(crate) fn push_gate(
    alloc: Global,
    clauses: &mut Vec<Clause>,
    gives: Lit,
    gate: Gate,
) -> Result<(), NoMemory>
    ensures { OnOk result (clauses.new.items ≡ clauses.old.items ++ clauses_for gives gate) }
{
    let fails = gives.negated();
    match gate {
        Gate::And(x, y) => {
            push_two(alloc, clauses, fails, x)?;
            push_two(alloc, clauses, fails, y)?;
            push_three(alloc, clauses, gives, x.negated(), y.negated())?;
        }
        Gate::Xor(x, y) => {
            push_three(alloc, clauses, fails, x, y)?;
            push_three(alloc, clauses, fails, x.negated(), y.negated())?;
            push_three(alloc, clauses, gives, x.negated(), y)?;
            push_three(alloc, clauses, gives, x, y.negated())?;
        }
        Gate::Ite(condition, x, y) => {
            push_three(alloc, clauses, fails, condition.negated(), x)?;
            push_three(alloc, clauses, gives, condition.negated(), x.negated())?;
            push_three(alloc, clauses, fails, condition, y)?;
            push_three(alloc, clauses, gives, condition, y.negated())?;
        }
    }
    Ok(())
}

/// Puts the clauses behind the others that make a bit true: none for the constant true, the empty one for the constant false.
pub(crate) fn push_bit(alloc: Global, clauses: &mut Vec<Clause>, bit: Bit) -> Result<(), NoMemory>
    ensures { OnOk result (clauses.new.items ≡ clauses.old.items ++ clauses_of_bit bit) }
{
    match bit {
        Bit::Constant(true) => {}
        Bit::Constant(false) => clauses.push(Clause::new(alloc))?,
        Bit::Literal(literal) => {
            clauses.push(Clause::from_vec(Vec::from_array(alloc, [literal])?))?;
        }
    }
    Ok(())
}

fn push_two(alloc: Global, clauses: &mut Vec<Clause>, x: Lit, y: Lit) -> Result<(), NoMemory>
    ensures { OnOk result (clauses.new.items ≡ clauses.old.items ++ (x ∷ y ∷ []) ∷ []) }
{
    clauses.push(Clause::from_vec(Vec::from_array(alloc, [x, y])?))?;
    Ok(())
}

fn push_three(
    alloc: Global,
    clauses: &mut Vec<Clause>,
    x: Lit,
    y: Lit,
    z: Lit,
) -> Result<(), NoMemory>
    ensures { OnOk result (clauses.new.items ≡ clauses.old.items ++ (x ∷ y ∷ z ∷ []) ∷ []) }
{
    clauses.push(Clause::from_vec(Vec::from_array(alloc, [x, y, z])?))?;
    Ok(())
}
