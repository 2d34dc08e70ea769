//! What a block reads from outside, part by part, as laws without code.

ghost use Rattle.std.specs.Prelude.{◌≡◌};
ghost use Rattle.verilog_trees.specs.Syntax.{Statement, Statements, statement};
ghost use Rattle.verilog_meaning.specs.Expression.{Scope};
ghost use Rattle.verilog_designs.specs.Reads.{BitSet, no_bits, or_in, but_not_in, surely_assigns, reads_after, all_read_after, reads_outside};

/// What a statement reads behind assignments is what it reads from outside, without the bits that they assigned.
pub fn reads_behind()
    ensures { (s : Scope) (done : BitSet) (x : Statement) → reads_after s done x ≡ but_not_in (reads_outside s x) done }
{}

/// What statements read from outside is what the first reads, and what the others read without the bits that it surely assigns.
pub fn reads_in_turn()
    ensures { (s : Scope) (x : Statement) (xs : Statements) → all_read_after s no_bits (statement x xs)
        ≡ or_in (reads_outside s x) (but_not_in (all_read_after s no_bits xs) (surely_assigns s x)) }
{}
