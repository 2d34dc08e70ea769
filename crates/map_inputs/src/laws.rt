//! The laws, each the contract of a function without code.
ghost use Rattle.map_inputs.specs.Laws.{BitsComeTheSame, KnownNamesStandForNames, ExpressionsUseTheSame};

use flat_designs::laws::bits_depend_on_the_same_bits;
use verilog_renamed::agreement::{names_stand_in_trees, scopes_agree_on_expressions};

/// A bit of a module comes from an input of the top exactly where it does in one scope.
pub fn bits_come_the_same()
    ensures { BitsComeTheSame }
{
    bits_depend_on_the_same_bits();
}

/// A name that expressions of a map know is that of a module's name, as it is written from the top.
pub fn known_names_stand_for_names()
    ensures { KnownNamesStandForNames }
{}

/// An expression of a map uses an input exactly where it reads a bit that is marked in one scope.
pub fn expressions_use_the_same()
    ensures { ExpressionsUseTheSame }
{
    bits_come_the_same();
    known_names_stand_for_names();
    names_stand_in_trees();
    scopes_agree_on_expressions();
}
