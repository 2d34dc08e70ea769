//! Worked values of expressions, statements and a module, and a law of processes, each the contract of a function without code.
ghost use Rattle.std.specs.Prelude.{◌≡◌, ◌∷◌, [], List, Some, None, codes, pos, negsuc};
ghost use Rattle.wb_values.specs.Value.{number, words};
ghost use Rattle.verilog_trees.specs.Syntax.{Item};
ghost use Rattle.verilog_meaning.specs.Register.{after_edge};
ghost use Rattle.verilog_meaning.specs.Expression.{undeclared};
ghost use Rattle.verilog_meaning.specs.Hierarchy.{declarations, declaration_of};
ghost use Rattle.verilog_meaning.specs.Process.{processes, ArePartsOfProcesses};
ghost use Rattle.verilog_meaning.specs.Worked.{given, half_sum, half_signed, half_joined, mixed_sum, negative, below_one, unsized_number, sized_number, indexed, reading, small_scope, small_values, two_updates, store_nine, small_module, small_items, small_object, small_processes, within_block, scalar, vector_of_one, plain_five, output_reg};

/// Widths and signs of operands: a sum keeps its carry in a target that is wider, and only a signed whole copies its sign bit.
pub fn operands_are_widened()
    ensures narrow { given 8 255 255 0 half_sum ≡ 127 }
    ensures wide { given 9 255 255 0 half_sum ≡ 255 }
    ensures narrow_high { given 8 128 0 0 half_sum ≡ 64 }
    ensures wide_high { given 9 128 0 0 half_sum ≡ 64 }
    ensures signed_all { given 9 255 0 0 half_signed ≡ 511 }
    ensures signed_high { given 9 128 0 0 half_signed ≡ 448 }
    ensures mixed { given 10 128 0 0 mixed_sum ≡ 256 }
    ensures joined_all { given 8 255 0 0 half_joined ≡ 127 }
    ensures joined_high { given 8 128 0 0 half_joined ≡ 64 }
{}

/// A comparison is signed where both sides are: -1 < 1 holds, and -8'd1 < 1 does not.
pub fn comparisons_go_by_both_signs()
    ensures signed { given 1 0 0 0 (below_one (negative (unsized_number 1))) ≡ 1 }
    ensures unsigned { given 1 0 0 0 (below_one (negative (sized_number 8 1))) ≡ 0 }
{}

/// A read out of range gives 0, an ascending range has its last index at the low end, and a write out of range does nothing.
pub fn selects_go_by_the_range()
    ensures word { given 8 0 0 4 (indexed (codes "m") (reading (codes "i"))) ≡ 14 }
    ensures no_word { given 8 0 0 5 (indexed (codes "m") (reading (codes "i"))) ≡ 0 }
    ensures first { given 1 0 0 0 (indexed (codes "up") (unsized_number 0)) ≡ 0 }
    ensures last { given 1 0 0 0 (indexed (codes "up") (unsized_number 7)) ≡ 1 }
    ensures past { given 1 0 0 0 (indexed (codes "up") (unsized_number 8)) ≡ 0 }
    ensures written { after_edge small_scope (store_nine ∷ []) (small_values 0 0 4) (codes "m") ≡ words (10 ∷ 11 ∷ 12 ∷ 13 ∷ 9 ∷ 0 ∷ 0 ∷ 0 ∷ []) }
    ensures not_written { after_edge small_scope (store_nine ∷ []) (small_values 0 0 5) (codes "m") ≡ words (10 ∷ 11 ∷ 12 ∷ 13 ∷ 14 ∷ 0 ∷ 0 ∷ 0 ∷ []) }
{}

/// The updates of a block take place in their order.
pub fn the_last_update_stays()
    ensures { after_edge small_scope (two_updates ∷ []) (small_values 0 0 0) (codes "q") ≡ number 2 }
{}

/// What gives values in a module is one list in the order of the text: its assignments, the connections of its instances' ports
/// and its blocks are parts of it.
pub fn processes_have_all_parts()
    ensures { (items : List Item) → ArePartsOfProcesses items }
{}

/// `wire a` has no range, `wire [0:0] b` has one, and so has a parameter that is declared without; other names are not declared.
pub fn names_stand_for_what_is_declared()
    ensures scalar { small_object (codes "a") ≡ scalar }
    ensures vector { small_object (codes "b") ≡ vector_of_one }
    ensures parameter { small_object (codes "p") ≡ plain_five }
    ensures other { small_object (codes "z") ≡ undeclared }
    ensures port { declaration_of (declarations small_module) (codes "q") ≡ Some output_reg }
{}

/// The processes of a module stand in the order of its text, those of declared wires among them; of an instance there is one for
/// each port to which something is connected, as written, and then what is inside it.
pub fn processes_stand_in_order()
    ensures { processes small_items ≡ small_processes }
{}

/// A path is written with dots between its steps, and the index of a generated block's copy in brackets.
pub fn paths_are_written_with_dots()
    ensures block { within_block None ≡ codes "u.blk.r" }
    ensures copy { within_block (Some (pos 3)) ≡ codes "u.blk[3].r" }
    ensures below_zero { within_block (Some (negsuc 0)) ≡ codes "u.blk[-1].r" }
{}
