//! Laws on terms over a design. The functions have no code.

ghost use Rattle.path_terms.specs.Laws.{DesignsStay, MemoriesAreRegisters, TermsStandForNames};

/// A design stays one where terms are added to its store.
pub fn a_design_stays_where_its_store_grows()
    ensures { DesignsStay }
{}

/// Where a table has the terms of names, each net, variable and memory of the scope has its term, and in each settled cycle it is worth its
/// value.
pub fn terms_stand_for_names()
    ensures { TermsStandForNames }
{}

/// A memory holds in a settled cycle what its register does.
pub fn memories_are_registers()
    ensures { MemoriesAreRegisters }
{}
