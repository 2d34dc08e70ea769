//! The laws, each the contract of a function without code.
ghost use Rattle.design_cycles.specs.Cycles.{AcceptedDesignHasCycles};
ghost use Rattle.design_cycles.specs.Unique.{OneOrder, OneReading, OneText};

/// An accepted design, whose tree is that of a text, has a top, settles under all registers and inputs, and has next registers; and a
/// dotted name is that of one net or variable of it.
pub fn an_accepted_design_has_cycles()
    ensures { AcceptedDesignHasCycles }
{}

/// The registers of a module, and of its instances, stand in one order.
pub fn registers_stand_in_one_order()
    ensures { OneOrder }
{}

/// By the names that a script may set of a design a text is read in one way, whatever names are taken.
pub fn a_script_is_read_in_one_way()
    ensures { OneReading }
{}

/// A script has one text on a design.
pub fn a_script_has_one_text()
    ensures { OneText }
{}
