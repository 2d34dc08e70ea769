//! The parts of a design that are taken from tables of terms.

ghost use Rattle.std.specs.Prelude.{◌≡◌, Some, map, option_map, min, IfOk};
ghost use Rattle.v_value.specs.Scope.{object_of};
ghost use Rattle.v_value.specs.Scope.{scope_at};
ghost use Rattle.v_lower.specs.Table.{images_at};
ghost use Rattle.v_design.specs.Bits.{counted_bits};
ghost use Rattle.v_registers.specs.Registers.{counted_of};
ghost use Rattle.v_elab.specs.Elaborated.{bits_of, register_names};
ghost use Rattle.v_elab.specs.Names.{HaveTerms};

use crate::NoMemory;
use std::alloc::Global;
use v_design::RegisterBits;
use v_lower::NamedTerms;
use v_registers::Register;
use v_value::scope::{Object, Scope};
use wb_terms::TermId;

/// The terms of registers, in their order.
pub(crate) fn next_of(
    alloc: Global,
    table: &NamedTerms<'_>,
    registers: &[Register<'_>],
) -> Result<Vec<TermId>, NoMemory>
    requires { HaveTerms (images_at table.now) (register_names (map counted_of registers.now)) }
    ensures { IfOk result (λ v. map (λ id. Some id.0) v.items ≡ map (images_at table.now) (register_names (map counted_of registers.now))) }
{
    let mut found = Vec::new(alloc);
    for register in registers {
        match table.term(register.name) {
            Some(id) => found.push(id)?,
            None => unreachable!(),
        }
    }
    Ok(found)
}

/// The least address of a memory.
fn least_address(object: Object) -> Option<u64>
    ensures { result ≡ option_map (λ a. min a.0 a.1) (object_of object).addresses }
{
    match object.addresses {
        None => None,
        Some((first, last)) => {
            if first < last {
                Some(first as u64)
            } else {
                Some(last as u64)
            }
        }
    }
}

/// A copy of masks.
fn copy_of(alloc: Global, masks: &[u128]) -> Result<Vec<u128>, NoMemory>
    ensures { IfOk result (λ v. v.items ≡ masks.now) }
{
    let mut copy = Vec::new(alloc);
    for mask in masks {
        copy.push(*mask)?;
    }
    Ok(copy)
}

/// The bits of a register.
fn register_bits(
    alloc: Global,
    scope: &Scope<'_>,
    register: &Register<'_>,
) -> Result<RegisterBits, NoMemory>
    ensures { IfOk result (λ b. counted_bits b ≡ bits_of (scope_at scope.now) (counted_of register.now)) }
{
    let least = least_address(scope.object(register.name));
    let masks = copy_of(alloc, &register.masks)?;
    Ok(RegisterBits { least, masks })
}

/// The bits of registers, in their order.
pub(crate) fn bits_of(
    alloc: Global,
    scope: &Scope<'_>,
    registers: &[Register<'_>],
) -> Result<Vec<RegisterBits>, NoMemory>
    ensures { IfOk result (λ v. map counted_bits v.items ≡ map (bits_of (scope_at scope.now)) (map counted_of registers.now)) }
{
    let mut found = Vec::new(alloc);
    for register in registers {
        let bits = register_bits(alloc, scope, register)?;
        found.push(bits)?;
    }
    Ok(found)
}
