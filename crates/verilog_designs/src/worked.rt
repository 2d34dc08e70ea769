//! Worked cases: small modules and blocks that break a rule, and those beside them that break none.
ghost use Rattle.std.specs.Prelude.{◌≡◌, ◌∷◌, [], true, false, Some, None, codes};
ghost use Rattle.verilog_trees.specs.Syntax.{no_ports, listed, declared, input, output, reg, wire, by_name, by_order, port, assign, place, whole, exact_case, wild_case, no_items, default_arm, if_then, if_else, binary, add, joined, target, no_targets};
ghost use Rattle.verilog_rules.specs.Worked.{plain, byte, with_wild};
ghost use Rattle.verilog_designs.specs.Names.{has_undeclared, has_duplicate, has_duplicate_module};
ghost use Rattle.verilog_designs.specs.Ports.{has_bad_port};
ghost use Rattle.verilog_designs.specs.Expressions.{broken_module, broken_statement};
ghost use Rattle.verilog_designs.specs.Reads.{reads, reads_outside, surely_assigns, is_full};
ghost use Rattle.verilog_designs.specs.Paths.{is_latched};
ghost use Rattle.verilog_designs.specs.Accepted.{has_no_clock};
ghost use Rattle.verilog_designs.specs.Dependence.{copied, takes};
ghost use Rattle.verilog_designs.specs.Worked.{module_of, placed, whole_name, range, port_as, a, b, q, P, r, i, parameter_P, wire_of, wire_of_range, with_P, reg_of, instance_of, child, nets, set, set_bit, both, bit_of, choice, item, pair, one_bit, bit, at};

/// A net may be used before its declaration, a parameter may not, not even in its own value.
pub fn undeclared_names()
    ensures net { has_undeclared [] (module_of no_ports (wire_of a (Some (whole_name b)) ∷ [])) ≡ true }
    ensures later_net { has_undeclared [] (module_of no_ports (wire_of a (Some (whole_name b)) ∷ wire_of b None ∷ [])) ≡ false }
    ensures later_parameter { has_undeclared [] (module_of no_ports (wire_of a (Some (whole_name P)) ∷ parameter_P (plain 1) ∷ [])) ≡ true }
    ensures parameter { has_undeclared [] (module_of no_ports (parameter_P (plain 1) ∷ wire_of a (Some (whole_name P)) ∷ [])) ≡ false }
    ensures own_value { has_undeclared [] (module_of no_ports (parameter_P (whole_name P) ∷ [])) ≡ true }
    ensures no_module { has_undeclared [] (module_of no_ports (instance_of (by_order []) ∷ [])) ≡ true }
    ensures module { has_undeclared (child ∷ []) (module_of no_ports (instance_of (by_order []) ∷ [])) ≡ false }
{}

/// A port may have one `reg` declaration besides its direction, where that has none itself.
pub fn duplicate_names()
    ensures two_nets { has_duplicate (module_of no_ports (wire_of a None ∷ reg_of None a ∷ [])) ≡ true }
    ensures port_and_reg { has_duplicate (module_of (declared (port_as output None None q ∷ [])) (reg_of None q ∷ [])) ≡ false }
    ensures reg_and_reg { has_duplicate (module_of (declared (port_as output (Some reg) None q ∷ [])) (reg_of None q ∷ [])) ≡ true }
    ensures listed_twice { has_duplicate (module_of (listed (a ∷ a ∷ [])) []) ≡ true }
    ensures parameter_and_net { has_duplicate (module_of no_ports (parameter_P (plain 1) ∷ wire_of P None ∷ [])) ≡ true }
    ensures modules { has_duplicate_module (child ∷ child ∷ []) ≡ true }
    ensures one_module { has_duplicate_module (child ∷ []) ≡ false }
{}

/// Directions and ports, ranges, and what is connected.
pub fn ports()
    ensures no_direction { has_bad_port [] (placed (module_of (listed (a ∷ [])) [])) ≡ true }
    ensures reg_input { has_bad_port [] (placed (module_of (declared (port_as input (Some reg) None a ∷ [])) [])) ≡ true }
    ensures reg_output { has_bad_port [] (placed (module_of (declared (port_as output (Some reg) None a ∷ [])) [])) ≡ false }
    ensures other_range { has_bad_port [] (placed (module_of (declared (port_as output None (range 3 0) q ∷ [])) (reg_of (range 0 3) q ∷ []))) ≡ true }
    ensures same_range { has_bad_port [] (placed (module_of (declared (port_as output None (range 3 0) q ∷ [])) (reg_of (range 3 0) q ∷ []))) ≡ false }
    ensures too_many { has_bad_port (child ∷ []) (placed (module_of no_ports (instance_of (by_order (None ∷ None ∷ None ∷ [])) ∷ []))) ≡ true }
    ensures none_connected { has_bad_port (child ∷ []) (placed (module_of no_ports (instance_of (by_order (None ∷ [])) ∷ []))) ≡ false }
    ensures unknown_port { has_bad_port (child ∷ []) (placed (module_of no_ports (instance_of (by_name ((b, None) ∷ [])) ∷ []))) ≡ true }
    ensures no_target { has_bad_port (child ∷ []) (placed (module_of no_ports (instance_of (by_name ((q, Some (one_bit 1)) ∷ [])) ∷ []))) ≡ true }
    ensures a_target { has_bad_port (child ∷ []) (placed (module_of no_ports (wire_of b None ∷ instance_of (by_name ((q, Some (whole_name b)) ∷ [])) ∷ []))) ≡ false }
{}

/// Indexes of continuous assignments are constant; a wild digit stands in an item of a `casez` alone.
pub fn expressions()
    ensures index { (broken_module [] (placed (module_of no_ports (reg_of None a ∷ reg_of (range 3 0) b ∷ assign ((at b (whole_name a), one_bit 0) ∷ []) ∷ [])))).bad_constant ≡ true }
    ensures bounds { (broken_module [] (placed (module_of no_ports (reg_of (range 65536 65530) a ∷ [])))).bad_constant ≡ true }
    ensures greatest_bound { (broken_module [] (placed (module_of no_ports (reg_of (range 65535 65530) a ∷ [])))).bad_constant ≡ false }
    ensures wide { (broken_module [] (placed (module_of no_ports (reg_of (range 128 0) a ∷ [])))).width_over_128 ≡ true }
    ensures in_casez { (broken_statement nets false (choice wild_case (whole_name a) (item with_wild (set q (byte 1)) no_items))).has_xz ≡ false }
    ensures in_case { (broken_statement nets false (choice exact_case (whole_name a) (item with_wild (set q (byte 1)) no_items))).has_xz ≡ true }
{}

/// A range that rests on a net is no constant, also where it rests on its own name; a width is judged where addresses have no value.
pub fn values_that_are_not_there()
    ensures own_name { (broken_module [] (placed (module_of no_ports (wire_of_range (whole_name a) (plain 0) a ∷ [])))).bad_constant ≡ true }
    ensures other_name { (broken_module [] (placed (module_of no_ports (wire_of_range (whole_name a) (plain 0) b ∷ wire_of a None ∷ [])))).bad_constant ≡ true }
    ensures number { (broken_module [] (placed (module_of no_ports (wire_of_range (plain 3) (plain 0) b ∷ wire_of a None ∷ [])))).bad_constant ≡ false }
{}

/// The clock is an input port of one bit: a range of another name, or one that uses a parameter too early, says nothing.
pub fn clocks()
    ensures scalar { has_no_clock (placed (module_of (declared (port_as input None None a ∷ [])) [])) a ≡ false }
    ensures one_bit { has_no_clock (placed (module_of (declared (port_as input None (range 5 5) a ∷ [])) [])) a ≡ false }
    ensures two_bits { has_no_clock (placed (module_of (declared (port_as input None (range 1 0) a ∷ [])) [])) a ≡ true }
    ensures output_port { has_no_clock (placed (module_of (declared (port_as output None None a ∷ [])) [])) a ≡ true }
    ensures not_listed { has_no_clock (placed (module_of (listed (b ∷ [])) (port (port_as input None None a) ∷ []))) a ≡ true }
    ensures listed { has_no_clock (placed (module_of (listed (a ∷ [])) (port (port_as input None None a) ∷ []))) a ≡ false }
    ensures wide_wire { has_no_clock (placed (module_of (declared (port_as input None None a ∷ [])) (wire_of_range (plain 1) (plain 0) a ∷ []))) a ≡ true }
    ensures too_early { has_no_clock (with_P (module_of (declared (port_as input None (Some (record { left = whole_name P; right = plain 0 })) a ∷ [])) (parameter_P (plain 1) ∷ []))) a ≡ false }
    ensures after_it { has_no_clock (with_P (module_of (listed (a ∷ [])) (parameter_P (plain 1) ∷ port (port_as input None (Some (record { left = whole_name P; right = plain 0 })) a) ∷ []))) a ≡ true }
{}

/// A bit is latched where some path does not assign it, or where it is read before.
pub fn latches()
    ensures one_branch { is_latched nets (if_then (whole_name i) (set q (byte 1))) q 0 0 ≡ true }
    ensures both_branches { is_latched nets (if_else (whole_name i) (set q (byte 1)) (set q (byte 2))) q 0 0 ≡ false }
    ensures first_default { is_latched nets (both (set q (byte 0)) (if_then (whole_name i) (set q (byte 1)))) q 0 0 ≡ false }
    ensures variable_index { is_latched nets (set_bit q (whole_name i) (one_bit 1)) q 0 0 ≡ true }
    ensures constant_index { is_latched nets (set_bit q (byte 0) (one_bit 1)) q 0 0 ≡ false }
    ensures read_before { is_latched nets (both (set r (whole_name q)) (set q (byte 1))) q 0 0 ≡ true }
    ensures read_after { is_latched nets (both (set q (byte 1)) (set r (whole_name q))) q 0 0 ≡ false }
{}

/// A case is full with a default, or by all values of a narrow expression.
pub fn full_cases()
    ensures both_values { is_full nets exact_case (bit_of i (byte 0)) (item (one_bit 0) (set q (byte 1)) (item (one_bit 1) (set q (byte 2)) no_items)) ≡ true }
    ensures one_value { is_full nets exact_case (bit_of i (byte 0)) (item (one_bit 0) (set q (byte 1)) no_items) ≡ false }
    ensures wider_items { is_full nets exact_case (bit_of i (byte 0)) (item (byte 0) (set q (byte 1)) (item (byte 1) (set q (byte 2)) no_items)) ≡ false }
    ensures with_default { is_full nets exact_case (bit_of i (byte 0)) (default_arm (set q (byte 1)) no_items) ≡ true }
    ensures wild { is_full nets wild_case (bit_of i (byte 0)) (item (one_bit 0) (set q (byte 1)) (item (one_bit 1) (set q (byte 2)) no_items)) ≡ false }
{}

/// What is read: a variable index reads all bits of its name, and a block does not read from outside what it assigned before.
pub fn reading()
    ensures one_bit { reads nets (bit_of a (byte 3)) a 0 3 ≡ true }
    ensures no_other { reads nets (bit_of a (byte 3)) a 0 2 ≡ false }
    ensures all_bits { reads nets (bit_of a (whole_name i)) a 0 2 ≡ true }
    ensures index { reads nets (bit_of a (whole_name i)) i 0 2 ≡ true }
    ensures outside { reads_outside nets (both (set q (whole_name a)) (set r (whole_name q))) a 0 7 ≡ true }
    ensures inside { reads_outside nets (both (set q (whole_name a)) (set r (whole_name q))) q 0 7 ≡ false }
{}

/// Which bit a plain right side copies, and which place of the value a bit of the target takes.
pub fn copies()
    ensures low_part { copied nets (pair (bit_of a (byte 5)) (bit_of i (byte 1))) false 0 ≡ Some (bit i 1) }
    ensures high_part { copied nets (pair (bit_of a (byte 5)) (bit_of i (byte 1))) false 1 ≡ Some (bit a 5) }
    ensures past { copied nets (whole_name a) false 8 ≡ None }
    ensures sign { copied nets (whole_name (codes "s")) true 6 ≡ Some (bit (codes "s") 3) }
    ensures own_place { takes nets (place q whole) (bit q 4) 4 ≡ true }
    ensures other_place { takes nets (place q whole) (bit q 4) 3 ≡ false }
    ensures joined_place { takes nets (joined (target (place q whole) (target (place r whole) no_targets))) (bit q 0) 8 ≡ true }
    ensures leftmost { takes nets (joined (target (place q whole) (target (place q whole) no_targets))) (bit q 0) 0 ≡ false }
{}
