//! Worked cases: maps that break a rule on names or bounds, and those beside them that break none; resets, paths and expressions.
ghost use Rattle.std.specs.Prelude.{◌≡◌, ◌∷◌, [], true, false, Some, None, codes};
ghost use Rattle.verilog_trees.specs.Syntax.{add, binary, divide};
ghost use Rattle.verilog_meaning.specs.Expression.{object_width, width_of};
ghost use Rattle.verilog_rules.specs.Expression.{refusal_of, undeclared_name, bad_constant_expression};
ghost use Rattle.verilog_rules.specs.Worked.{plain};
ghost use Rattle.verilog_designs.specs.Worked.{whole_name, a};
ghost use Rattle.map_rules.specs.Expressions.{is_reset};
ghost use Rattle.map_rules.specs.Names.{has_unknown_state, has_unmapped_state, has_unknown_input, has_unmapped_input, has_unknown_instruction, has_missing_bound, has_bad_bound};
ghost use Rattle.map_rules.specs.Worked.{counter_under, cnt, op, both, entry, small_design, small_scope};

/// Each state of the model is mapped, and nothing else is.
pub fn states_are_mapped()
    ensures known { has_unknown_state (counter_under cnt op 1 both) ≡ false }
    ensures unknown { has_unknown_state (counter_under ((codes "d", codes "cnt") ∷ cnt) op 1 both) ≡ true }
    ensures input_as_state { has_unknown_state (counter_under op op 1 both) ≡ true }
    ensures mapped { has_unmapped_state (counter_under cnt op 1 both) ≡ false }
    ensures unmapped { has_unmapped_state (counter_under [] op 1 both) ≡ true }
{}

/// So it is with inputs.
pub fn inputs_are_mapped()
    ensures known { has_unknown_input (counter_under cnt op 1 both) ≡ false }
    ensures unknown { has_unknown_input (counter_under cnt ((codes "z", codes "op") ∷ op) 1 both) ≡ true }
    ensures mapped { has_unmapped_input (counter_under cnt op 1 both) ≡ false }
    ensures unmapped { has_unmapped_input (counter_under cnt [] 1 both) ≡ true }
{}

/// Each instruction has one entry.
pub fn instructions_have_entries()
    ensures known { has_unknown_instruction (counter_under cnt op 1 both) ≡ false }
    ensures unknown { has_unknown_instruction (counter_under cnt op 1 (entry (codes "DEC") 1 ∷ [])) ≡ true }
    ensures twice { has_unknown_instruction (counter_under cnt op 1 (entry (codes "INC") 1 ∷ both)) ≡ true }
    ensures none_missing { has_missing_bound (counter_under cnt op 1 both) ≡ false }
    ensures missing { has_missing_bound (counter_under cnt op 1 (entry (codes "INC") 1 ∷ [])) ≡ true }
{}

/// Bounds are 1 to 256, and the reset takes 1 to 16 cycles.
pub fn bounds()
    ensures least { has_bad_bound (counter_under cnt op 1 both) ≡ false }
    ensures greatest { has_bad_bound (counter_under cnt op 16 (entry (codes "INC") 256 ∷ [])) ≡ false }
    ensures no_cycle { has_bad_bound (counter_under cnt op 0 both) ≡ true }
    ensures cycles_17 { has_bad_bound (counter_under cnt op 17 both) ≡ true }
    ensures bound_0 { has_bad_bound (counter_under cnt op 1 (entry (codes "INC") 0 ∷ [])) ≡ true }
    ensures bound_257 { has_bad_bound (counter_under cnt op 1 (entry (codes "INC") 1 ∷ entry (codes "CLR") 257 ∷ [])) ≡ true }
{}

/// The reset is an input port of the top of one bit, and not the clock.
pub fn resets()
    ensures one_bit { is_reset small_design (codes "rst") ≡ true }
    ensures one_bit_of_a_range { is_reset small_design (codes "b") ≡ true }
    ensures clock { is_reset small_design (codes "clk") ≡ false }
    ensures four_bits { is_reset small_design (codes "a") ≡ false }
    ensures output { is_reset small_design (codes "q") ≡ false }
    ensures below { is_reset small_design (codes "u.q") ≡ false }
    ensures no_net { is_reset small_design (codes "x") ≡ false }
{}

/// Names are those of the top, and paths into its instances; an expression is judged as one where no constant is wanted.
pub fn paths()
    ensures top { object_width (small_scope (codes "b")) ≡ 1 }
    ensures below { object_width (small_scope (codes "u.a")) ≡ 4 }
    ensures declared { refusal_of small_scope (whole_name (codes "u.q")) ≡ None }
    ensures no_instance { refusal_of small_scope (whole_name (codes "v.q")) ≡ Some undeclared_name }
    ensures no_net { refusal_of small_scope (whole_name (codes "u.b")) ≡ Some undeclared_name }
    ensures instance { refusal_of small_scope (whole_name (codes "u")) ≡ Some undeclared_name }
    ensures division { refusal_of small_scope (binary divide (plain 8) (plain 2)) ≡ Some bad_constant_expression }
    ensures sum { refusal_of small_scope (binary add (whole_name a) (plain 0)) ≡ None }
    ensures width_of_the_sum { width_of small_scope (binary add (whole_name a) (plain 0)) ≡ 32 }
{}
