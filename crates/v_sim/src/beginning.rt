//! The registers with which a script begins, and the inputs that its lines give.

ghost use Rattle.std.specs.Prelude.{◌≡◌, IfOk, IsTrue, map};
ghost use Rattle.wb_values.specs.Value.{number};
ghost use Rattle.wb_terms.specs.Environment.{AreOfSorts, as_value};
ghost use Rattle.v_design.specs.Seen.{input_values, parts_of, register_values};
ghost use Rattle.v_design.specs.Parts.{registers_of, inputs_of};
ghost use Rattle.ila_sim.specs.Outcomes.{with_set, with_all};
ghost use Rattle.ila_sim.specs.Sets.{are_right};
ghost use Rattle.v_sim.specs.Names.{names_by};
ghost use Rattle.v_sim.specs.Texts.{zeros, first_values, line_values};

use ila_sim::{Set, set_all, zero};
use std::alloc::Global;
use v_design::{Design, Inputs, Registers};
use wb_terms::{NameId, NoMemory, Value};

/// The zeros of the registers.
fn zeros(alloc: Global, design: &Design) -> Result<Vec<Value>, NoMemory>
    ensures { IfOk result (λ v. map as_value v.items ≡ zeros (registers_of (parts_of design.now))) }
{
    let mut zeros = Vec::with_capacity(alloc, design.register_count())?;
    for place in 0..design.register_count() {
        zeros.push(zero(alloc, design.terms.name_sort(NameId(place)))?)?;
    }
    Ok(zeros)
}

/// The registers with which a script begins: zeros, and what is set.
pub fn first_registers(alloc: Global, design: &Design, sets: &[Set]) -> Result<Registers, NoMemory>
    requires { IsTrue (are_right (names_by (parts_of design.now)).states sets.now) }
    ensures values { IfOk result (λ r. register_values r ≡ first_values (parts_of design.now) sets.now) }
    ensures sorted { IfOk result (λ r. AreOfSorts (registers_of (parts_of design.now)) (register_values r)) }
{
    let mut values = zeros(alloc, design)?;
    set_all(&mut values, sets);
    Ok(Registers { values })
}

/// Makes one setting.
fn set_number(numbers: &mut [u128], set: &Set)
    ensures { map number numbers.new ≡ with_set (map number numbers.old) set.now }
{
    if set.place < numbers.len() {
        numbers[set.place] = set.value;
    }
}

/// Makes all settings of a line.
fn set_numbers(numbers: &mut [u128], sets: &[Set])
    ensures { map number numbers.new ≡ with_all (map number numbers.old) sets.now }
{
    for one in sets {
        set_number(numbers, one);
    }
}

/// The inputs that a line gives.
pub fn line_inputs(alloc: Global, design: &Design, sets: &[Set]) -> Result<Inputs, NoMemory>
    requires { IsTrue (are_right (names_by (parts_of design.now)).inputs sets.now) }
    ensures values { IfOk result (λ i. input_values i ≡ line_values (parts_of design.now) sets.now) }
    ensures sorted { IfOk result (λ i. AreOfSorts (inputs_of (parts_of design.now)) (input_values i)) }
{
    let mut numbers = vec![in alloc; 0u128; design.input_count()]?;
    set_numbers(&mut numbers, sets);
    Ok(Inputs { numbers })
}
