//! The names of a module by what they are: registers, inputs and others.

ghost use Rattle.std.specs.Prelude.{◌≡◌, ◌++◌, ◌∷◌, [], map, option_map, IfOk, OnOk};
ghost use Rattle.v_registers.specs.Registers.{counted_of};
ghost use Rattle.v_elab.specs.Names.{top_front, after_front, is_data_input, is_given_input, chosen, left_out};
ghost use Rattle.v_elab.specs.Elaborated.{register_names};

use crate::NoMemory;
use std::alloc::Global;
use v_registers::Register;
use v_scopes::ModuleScope;
use v_syntax::module::Direction;

/// Names that are inputs, and others, each in their order.
#[derive(Drop)]
pub(crate) struct Inputs<'s> {
    pub(crate) inputs: Vec<&'s str>,
    pub(crate) others: Vec<&'s str>,
}

/// Whether a name is an input port and not the clock.
fn is_data_input(names: &ModuleScope<'_>, clock: &str, name: &str) -> bool
    ensures { result ≡ is_data_input names.now clock.now name.now }
{
    if clock == name {
        return false;
    }
    match names.find(name) {
        Some(declared) => match declared.direction {
            Some(Direction::Input) => true,
            Some(Direction::Output) => false,
            None => false,
        },
        None => false,
    }
}

/// The name in its module of a name of the top in the one scope. Names of other modules have none.
fn top_name<'n>(name: &'n str) -> Option<&'n str>
    ensures { option_map (λ n. n.now) result ≡ after_front top_front name.now }
{
    match name.strip_prefix('0') {
        Some(rest) => rest.strip_prefix('.'),
        None => None,
    }
}

/// Whether a name in the one scope is one of the top, an input port and not the clock.
fn is_given_input(names: &ModuleScope<'_>, clock: &str, name: &str) -> bool
    ensures { result ≡ is_given_input names.now clock.now top_front name.now }
{
    match top_name(name) {
        Some(own) => is_data_input(names, clock, own),
        None => false,
    }
}

/// Adds a name to the inputs, if it is one, and else to the others.
fn add_name<'s>(
    names: &ModuleScope<'_>,
    clock: &str,
    name: &'s str,
    found: &mut Inputs<'s>,
) -> Result<(), NoMemory>
    ensures inputs { OnOk result (map (λ n. n.now) found.new.inputs.items ≡ map (λ n. n.now) found.old.inputs.items ++ chosen (is_given_input names.now clock.now top_front) (name.now ∷ [])) }
    ensures others { OnOk result (map (λ n. n.now) found.new.others.items ≡ map (λ n. n.now) found.old.others.items ++ left_out (is_given_input names.now clock.now top_front) (name.now ∷ [])) }
{
    if is_given_input(names, clock, name) {
        found.inputs.push(name)?;
    } else {
        found.others.push(name)?;
    }
    Ok(())
}

/// The inputs among names but the clock, and the others.
pub(crate) fn inputs_among<'s>(
    alloc: Global,
    names: &ModuleScope<'_>,
    clock: &str,
    list: &[&'s str],
) -> Result<Inputs<'s>, NoMemory>
    ensures inputs { IfOk result (λ r. map (λ n. n.now) r.inputs.items ≡ chosen (is_given_input names.now clock.now top_front) (map (λ n. n.now) list.now)) }
    ensures others { IfOk result (λ r. map (λ n. n.now) r.others.items ≡ left_out (is_given_input names.now clock.now top_front) (map (λ n. n.now) list.now)) }
{
    let mut found = Inputs {
        inputs: Vec::new(alloc),
        others: Vec::new(alloc),
    };
    for name in list {
        add_name(names, clock, *name, &mut found)?;
    }
    Ok(found)
}

/// Adds names to others.
pub(crate) fn add_names<'s>(names: &[&'s str], order: &mut Vec<&'s str>) -> Result<(), NoMemory>
    ensures { OnOk result (map (λ n. n.now) order.new.items ≡ map (λ n. n.now) order.old.items ++ map (λ n. n.now) names.now) }
{
    for name in names {
        order.push(*name)?;
    }
    Ok(())
}

/// Adds the names of registers.
fn add_registers<'s>(registers: &[Register<'s>], order: &mut Vec<&'s str>) -> Result<(), NoMemory>
    ensures { OnOk result (map (λ n. n.now) order.new.items ≡ map (λ n. n.now) order.old.items ++ register_names (map counted_of registers.now)) }
{
    for register in registers {
        order.push(register.name)?;
    }
    Ok(())
}

/// The names of registers, and then those of inputs.
pub(crate) fn names_of_store<'s>(
    alloc: Global,
    registers: &[Register<'s>],
    inputs: &[&'s str],
) -> Result<Vec<&'s str>, NoMemory>
    ensures { IfOk result (λ v. map (λ n. n.now) v.items ≡ register_names (map counted_of registers.now) ++ map (λ n. n.now) inputs.now) }
{
    let mut order = Vec::new(alloc);
    add_registers(registers, &mut order)?;
    add_names(inputs, &mut order)?;
    Ok(order)
}
