//! The places of registers and inputs, in the order of their names' bytes.

ghost use Rattle.std.specs.Prelude.{◌≡◌, ◌<◌, length, map, IfOk, OnOk};
ghost use Rattle.v_design.specs.Parts.{inputs_of};
ghost use Rattle.v_design.specs.Seen.{parts_of};
ghost use Rattle.trace_texts.specs.Order.{has_set, with_number, input_name, register_places, input_places};
ghost use Rattle.trace_texts.specs.Told.{AreNamesOf};
ghost use Rattle.trace_texts.specs.Numbers.{numbers_in};

use std::alloc::{AllocError, Global};
use std::collections::BTreeMap;
use v_design::{Design, RegisterBits};
use wb_terms::NameId;

/// Memory ran out.
pub type NoMemory = AllocError;

/// The places of a design's registers and inputs, in the order in which they stand in a trace.
#[derive(Drop)]
pub struct TraceNames {
    /// Among the registers, of those of which a bit counts.
    pub registers: Vec<usize>,
    /// Among the inputs.
    pub inputs: Vec<usize>,
}

/// Whether a bit of the register counts.
fn is_traced(bits: &RegisterBits) -> bool
    ensures { result ≡ has_set bits.now.masks.items }
{
    bits.masks.iter().any(|mask| *mask > 0)
}

/// Puts the name in its place, with its number.
fn add_name<'a>(
    names: &mut BTreeMap<&'a [u8], usize>,
    name: &'a [u8],
    number: usize,
) -> Result<(), NoMemory>
    ensures { OnOk result (numbers_in names.new.entries ≡ with_number name.now number (numbers_in names.old.entries)) }
{
    names.insert(name, number)?;
    Ok(())
}

/// The numbers of the names, in their order.
fn listed(alloc: Global, names: &BTreeMap<&[u8], usize>) -> Result<Vec<usize>, NoMemory>
    ensures { IfOk result (λ list. list.items ≡ map (λ e. e.1) (numbers_in names.now.entries)) }
{
    let mut list = Vec::new(alloc);
    for (_name, number) in names {
        list.push(*number)?;
    }
    Ok(list)
}

/// The places of the registers of which a bit counts, in the order of their names.
fn register_places(alloc: Global, design: &Design) -> Result<Vec<usize>, NoMemory>
    ensures { IfOk result (λ list. list.items ≡ register_places (parts_of design.now)) }
{
    let mut names = BTreeMap::new(alloc);
    for place in 0..design.register_count() {
        if is_traced(&design.bits[place]) {
            let name = design.register_name(place).as_bytes();
            add_name(&mut names, name, place)?;
        }
    }
    listed(alloc, &names)
}

/// The name of an input, by its place among them.
pub(crate) fn input_name(design: &Design, place: usize) -> &str
    requires { place < length (inputs_of (parts_of design.now)) }
    ensures { result.now ≡ input_name (parts_of design.now) place }
{
    // The inputs are the last of the names.
    let first = design.terms.name_count() as usize - design.input_count();
    design.terms.name(NameId(first + place))
}

/// The places of the inputs, in the order of their names.
fn input_places(alloc: Global, design: &Design) -> Result<Vec<usize>, NoMemory>
    ensures { IfOk result (λ list. list.items ≡ input_places (parts_of design.now)) }
{
    let mut names = BTreeMap::new(alloc);
    for place in 0..design.input_count() {
        let name = input_name(design, place).as_bytes();
        add_name(&mut names, name, place)?;
    }
    listed(alloc, &names)
}

impl TraceNames {
    /// The order of a design's names.
    pub fn new(alloc: Global, design: &Design) -> Result<TraceNames, NoMemory>
        ensures { IfOk result (AreNamesOf (parts_of design.now)) }
    {
        let registers = register_places(alloc, design)?;
        let inputs = input_places(alloc, design)?;
        Ok(TraceNames { registers, inputs })
    }
}
