//! Bits of memories.

ghost use Rattle.std.specs.Prelude.{◌≡◌, ◌≤◌, ◌*◌, ◌^◌, IsTrue};
ghost use Rattle.model_meaning.specs.Term.{is_sort};
ghost use Rattle.model_meaning.specs.Model.{states_of};
ghost use Rattle.wb_terms.specs.Sort.{as_sort};
ghost use Rattle.ila_model.specs.Model.{model_of};
ghost use Rattle.v_design.specs.Bits.{counted_bits};
ghost use Rattle.v_design.specs.Parts.{registers_of, are_bits_of};
ghost use Rattle.v_design.specs.Seen.{parts_of};
ghost use Rattle.check_limits.specs.Limits.{state_bits_of, register_bits_of, state_bits, register_bits};

use ila_model::IlaModel;
use v_design::{Design, RegisterBits};
use wb_terms::{NameId, Sort};

/// The bits of a state, if it is a memory.
fn bits_of_state(sort: Sort) -> u128
    requires { IsTrue (is_sort (as_sort sort)) }
    ensures value { result ≡ state_bits_of (as_sort sort) }
    ensures bound { result ≤ 2 ^ 23 }
{
    match sort {
        Sort::Memory(address_width, width) => (1u128 << address_width) * u128::from(width),
        _ => 0,
    }
}

/// The bits of a register, if it is a memory.
fn bits_of_register(sort: Sort, bits: &RegisterBits) -> u128
    requires sort { IsTrue (is_sort (as_sort sort)) }
    requires bits { IsTrue (are_bits_of (as_sort sort) (counted_bits bits.now)) }
    ensures value { result ≡ register_bits_of (as_sort sort) (counted_bits bits.now) }
    ensures bound { result ≤ 2 ^ 23 }
{
    match sort {
        Sort::Memory(_, width) => bits.masks.len() as u128 * u128::from(width),
        _ => 0,
    }
}

/// The memory bits of the states of a model.
pub(crate) fn bits_of_states(model: &IlaModel) -> u128
    ensures value { result ≡ state_bits (states_of (model_of model.now).top) }
    ensures bound { result ≤ 2 ^ 64 * 2 ^ 23 }
{
    let mut total = 0;
    for place in 0..model.state_count() {
        total += bits_of_state(model.state_sort(place));
    }
    total
}

/// The memory bits of the registers of a design.
pub(crate) fn bits_of_registers(design: &Design) -> u128
    ensures value { result ≡ register_bits (registers_of (parts_of design.now)) (parts_of design.now).bits }
    ensures bound { result ≤ 2 ^ 64 * 2 ^ 23 }
{
    let mut total = 0;
    for place in 0..design.register_count() {
        total += bits_of_register(design.terms.name_sort(NameId(place)), &design.bits[place]);
    }
    total
}
