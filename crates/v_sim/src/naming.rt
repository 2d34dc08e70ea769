//! The names that a script may set of a design.

ghost use Rattle.std.specs.Prelude.{◌≡◌, ◌<◌, ◌≤◌, ◌^◌, Some, IfOk, IsTrue, length, map, slice_get};
ghost use Rattle.model_meaning.specs.Term.{is_sort};
ghost use Rattle.wb_terms.specs.Sort.{as_sort};
ghost use Rattle.v_design.specs.Seen.{parts_of};
ghost use Rattle.v_design.specs.Bits.{counted_bits};
ghost use Rattle.v_design.specs.Parts.{are_bits_of, inputs_of};
ghost use Rattle.ila_sim.specs.Kinds.{width_of, end_of};
ghost use Rattle.ila_sim.specs.Names.{settable_of};
ghost use Rattle.ila_sim.specs.Settables.{settables_view};
ghost use Rattle.v_sim.specs.Names.{kind_of, names_by, word_width};

use ila_sim::{Kind, Names, Settable};
use std::alloc::Global;
use v_design::{Design, RegisterBits};
use wb_terms::{NameId, NoMemory, Sort};

/// Which words a register has, and which values fit.
fn kind_of(bits: &RegisterBits, sort: Sort) -> Kind
    requires sort { IsTrue (is_sort (as_sort sort)) }
    requires bits { IsTrue (are_bits_of (as_sort sort) (counted_bits bits.now)) }
    ensures kind { result ≡ kind_of (as_sort sort) (counted_bits bits.now) }
    ensures narrow { width_of result ≤ 128 }
    ensures near { end_of result ≤ 2 ^ 64 }
{
    match sort {
        Sort::Truth => Kind::Truth,
        Sort::Word(width) => Kind::Word(width),
        Sort::Memory(_, width) => {
            Kind::Memory(bits.least.unwrap_or(0), bits.masks.len() as u64, width)
        }
    }
}

/// The register at a place.
fn register_at(alloc: Global, design: &Design, place: usize) -> Result<Settable, NoMemory>
    requires { place < design.now.register_count }
    ensures { IfOk result (λ s. slice_get (names_by (parts_of design.now)).states place ≡ Some (settable_of s)) }
{
    let bits = &design.bits[place];
    let kind = kind_of(bits, design.terms.name_sort(NameId(place)));
    let masks = Vec::from_slice(alloc, &bits.masks)?;
    let name = Vec::from_slice(alloc, design.register_name(place).as_bytes())?;
    Ok(Settable {
        name,
        kind,
        masks: Some(masks),
    })
}

/// The bits of an input.
fn word_width(sort: Sort) -> u32
    requires { IsTrue (is_sort (as_sort sort)) }
    ensures width { result ≡ word_width (as_sort sort) }
    ensures narrow { result ≤ 128 }
{
    match sort {
        Sort::Word(width) => width,
        _ => 1,
    }
}

/// The input at a place.
fn input_at(alloc: Global, design: &Design, place: usize) -> Result<Settable, NoMemory>
    requires { place < length (inputs_of (parts_of design.now)) }
    ensures { IfOk result (λ s. slice_get (names_by (parts_of design.now)).inputs place ≡ Some (settable_of s)) }
{
    let first = design.terms.name_count() as usize - design.input_count();
    let id = NameId(first + place);
    let width = word_width(design.terms.name_sort(id));
    let name = Vec::from_slice(alloc, design.terms.name(id).as_bytes())?;
    Ok(Settable {
        name,
        kind: Kind::Word(width),
        masks: None,
    })
}

/// What a state line may set.
fn states(alloc: Global, design: &Design) -> Result<Vec<Settable>, NoMemory>
    ensures { IfOk result (λ v. map settable_of v.items ≡ (names_by (parts_of design.now)).states) }
{
    let mut states = Vec::new(alloc);
    for place in 0..design.register_count() {
        states.push(register_at(alloc, design, place)?)?;
    }
    Ok(states)
}

/// What an input line may set.
fn inputs(alloc: Global, design: &Design, count: usize) -> Result<Vec<Settable>, NoMemory>
    requires { count ≡ length (inputs_of (parts_of design.now)) }
    ensures { IfOk result (λ v. map settable_of v.items ≡ (names_by (parts_of design.now)).inputs) }
{
    let mut inputs = Vec::new(alloc);
    for place in 0..count {
        inputs.push(input_at(alloc, design, place)?)?;
    }
    Ok(inputs)
}

/// The names that a script may set of the design: its registers, and the inputs of its top but for the clock.
pub fn names_of(alloc: Global, design: &Design) -> Result<Names, NoMemory>
    ensures { IfOk result (λ n. settables_view n ≡ names_by (parts_of design.now)) }
{
    let states = states(alloc, design)?;
    let count = design.terms.name_count() as usize - design.register_count;
    let inputs = inputs(alloc, design, count)?;
    Ok(Names { states, inputs })
}
