//! The names of a design's registers and inputs, found by tables.

ghost use Rattle.std.specs.Prelude.{◌≡◌, List, ℕ};
ghost use Rattle.v_design.specs.Parts.{registers_of, inputs_of};
ghost use Rattle.v_design.specs.Seen.{parts_of};
ghost use Rattle.trace_reading.specs.Fitting.{place_in};
ghost use Rattle.trace_reading.specs.Tables.{place_under};

use std::collections::BTreeMap;
use v_design::Design;

/// A design, with tables of the places of its registers and of its inputs by their names.
#[derive(Drop)]
pub(crate) struct NamedDesign<'a> {
    pub(crate) design: &'a Design,
    pub(crate) registers: BTreeMap<&'a str, usize>,
    pub(crate) inputs: BTreeMap<&'a str, usize>,
    ghost registers_found: { (n : List ℕ) → place_under registers n ≡ place_in (registers_of (parts_of design.now)) n },
    ghost inputs_found: { (n : List ℕ) → place_under inputs n ≡ place_in (inputs_of (parts_of design.now)) n },
}
