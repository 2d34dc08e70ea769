//! Worked statements: what the definitions give for statements whose effects are known.
ghost use Rattle.std.specs.Prelude.{◌≡◌, [], ◌∷◌};
ghost use Rattle.wb_values.specs.Value.{number, words, valuation_of};
ghost use Rattle.verilog_trees.specs.Syntax.{exact_case, wild_case, case};
ghost use Rattle.verilog_meaning.specs.Expression.{no_values};
ghost use Rattle.verilog_meaning.specs.Statement.{run};
ghost use Rattle.verilog_meaning.specs.Register.{after_edge};
ghost use Rattle.v_statement.specs.WorkedStatements as worked;

/// `begin q <= 1; q <= 2; end` leaves 2, and two blocks `a <= b;` and `b <= a;` swap their values.
pub fn nonblocking_assignments()
    ensures last_stays { after_edge worked.small_names (worked.assigned_twice ∷ []) no_values worked.q ≡ number 2 }
    ensures left_swapped { after_edge worked.small_names (worked.copied_from worked.a worked.b ∷ worked.copied_from worked.b worked.a ∷ []) worked.five_and_nine worked.a ≡ number 9 }
    ensures right_swapped { after_edge worked.small_names (worked.copied_from worked.a worked.b ∷ worked.copied_from worked.b worked.a ∷ []) worked.five_and_nine worked.b ≡ number 5 }
{}

/// A write to address 4 of `reg [7:0] m [0:4]` reaches its last word, and one to address 5 does nothing.
pub fn memory_writes()
    ensures in_range { after_edge worked.small_names (worked.stored_at 4 ∷ []) worked.five_zeros worked.m ≡ words (0 ∷ 0 ∷ 0 ∷ 0 ∷ 7 ∷ []) }
    ensures out_of_range { after_edge worked.small_names (worked.stored_at 5 ∷ []) worked.five_zeros worked.m ≡ words (0 ∷ 0 ∷ 0 ∷ 0 ∷ 0 ∷ []) }
{}

/// `{a, b} <= 16'h1234` splits at the high end, and `{k, k} <= 2'd2` leaves what the leftmost part got.
pub fn joined_targets()
    ensures high_part { after_edge worked.small_names (worked.split worked.a worked.b (worked.digits 16 4660 0) ∷ []) no_values worked.a ≡ number 18 }
    ensures low_part { after_edge worked.small_names (worked.split worked.a worked.b (worked.digits 16 4660 0) ∷ []) no_values worked.b ≡ number 52 }
    ensures leftmost_stays { after_edge worked.small_names (worked.split worked.k worked.k (worked.digits 2 2 0) ∷ []) no_values worked.k ≡ number 1 }
{}

/// In `casez` the `?` bits of an item match any bit, in `case` they do not; a default that stands first is taken last.
pub fn cases()
    ensures wild_matches { (run worked.small_names (case wild_case (worked.digits 8 5 0) worked.wild_item) no_values).valuation worked.q ≡ number 1 }
    ensures exact_does_not { (run worked.small_names (case exact_case (worked.digits 8 5 0) worked.wild_item) no_values).valuation worked.q ≡ number 2 }
    ensures default_is_last { (run worked.small_names (case exact_case (worked.digits 8 5 0) worked.default_first) no_values).valuation worked.q ≡ number 1 }
{}

/// Of 8'h55, `q[7:4] = 10` leaves 8'hA5, and where `w` is declared `[0:7]`, so does `w[0:3] = 10`.
pub fn part_writes()
    ensures descending { (run worked.small_names (worked.part_set worked.q (worked.between 7 4) (worked.digits 4 10 0)) (worked.fives_with 0)).valuation worked.q ≡ number 165 }
    ensures ascending { (run worked.small_names (worked.part_set worked.w (worked.between 0 3) (worked.digits 4 10 0)) (worked.fives_with 0)).valuation worked.w ≡ number 165 }
{}

/// `[b +: 4]` and `[b -: 4]` go by the indexes of the declaration, and bits past either end are not written.
pub fn writes_from_a_base()
    ensures past_the_high_end { after_edge worked.small_names (worked.part_later worked.q (worked.up_from_b 4) (worked.digits 4 11 0) ∷ []) (worked.fives_with 6) worked.q ≡ number 213 }
    ensures past_the_low_end { (run worked.small_names (worked.part_set worked.q (worked.down_from_b 4) (worked.digits 4 11 0)) (worked.fives_with 1)).valuation worked.q ≡ number 86 }
    ensures from_below { (run worked.small_names worked.from_minus_two (worked.fives_with 0)).valuation worked.q ≡ number 86 }
    ensures ascending_up { (run worked.small_names (worked.part_set worked.w (worked.up_from_b 4) (worked.digits 4 11 0)) (worked.fives_with 6)).valuation worked.w ≡ number 86 }
    ensures ascending_down { (run worked.small_names (worked.part_set worked.w (worked.down_from_b 4) (worked.digits 4 11 0)) (worked.fives_with 6)).valuation worked.w ≡ number 87 }
{}

/// `m[i][3:0] <= 12` writes four bits of one word, and none where the address is out of range.
pub fn parts_of_words()
    ensures in_range { after_edge worked.small_names (worked.low_half_stored_at 2 ∷ []) worked.five_zeros worked.m ≡ words (0 ∷ 0 ∷ 12 ∷ 0 ∷ 0 ∷ []) }
    ensures out_of_range { after_edge worked.small_names (worked.low_half_stored_at 5 ∷ []) worked.five_zeros worked.m ≡ words (0 ∷ 0 ∷ 0 ∷ 0 ∷ 0 ∷ []) }
{}

/// `{q[7:4], w[b -: 2], q[1:0]} = 8'b10111010` splits at the high end; of `{q[3:0], q[5:2]} = 8'hA9` the leftmost part stays.
pub fn joined_parts()
    ensures outer_parts { (run worked.small_names worked.joined_parts (worked.fives_with 7)).valuation worked.q ≡ number 182 }
    ensures inner_part { (run worked.small_names worked.joined_parts (worked.fives_with 7)).valuation worked.w ≡ number 86 }
    ensures named_twice { (run worked.small_names worked.parts_named_twice (worked.fives_with 0)).valuation worked.q ≡ number 106 }
{}
