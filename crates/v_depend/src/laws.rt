//! On what bits rest after a block, as a law without code.

ghost use Rattle.std.specs.Prelude.{◌↔◌, IsTrue};
ghost use Rattle.verilog_trees.specs.Syntax.{Statement};
ghost use Rattle.verilog_meaning.specs.Expression.{Scope};
ghost use Rattle.verilog_designs.specs.Reads.{BitSet};
ghost use Rattle.verilog_designs.specs.Dependence.{Bit, is_in, at_start, After};
ghost use Rattle.v_depend.specs.Resting.{IsThere, RestsAfter};

/// A bit rests after a run of a statement exactly where, by the statement, it depends on a bit that is not settled at the start.
pub fn rests_where_it_depends()
    ensures { (unsettled : BitSet) (s : Scope) (x : Statement) (u : Bit) → IsThere s u
        → RestsAfter unsettled s x u ↔ (y : Bit) × IsTrue (is_in unsettled y) × After s at_start x u y }
{}
