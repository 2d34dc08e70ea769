//! Worked values: what the definitions give for expressions whose values are known.
ghost use Rattle.std.specs.Prelude.{◌≡◌, true, false};
ghost use Rattle.verilog_meaning.specs.Expression.{self_value, assigned_value};
ghost use Rattle.v_value.specs.Worked as worked;

/// `(a + b) >> 1` of two unsigned operands of 8 bits keeps the carry where the target has 9 bits.
pub fn carries()
    ensures narrow_at_255 { assigned_value worked.names (worked.operands 255 255) 8 worked.shifted_sum ≡ 127 }
    ensures wide_at_255 { assigned_value worked.names (worked.operands 255 255) 9 worked.shifted_sum ≡ 255 }
    ensures narrow_at_128 { assigned_value worked.names (worked.operands 128 0) 8 worked.shifted_sum ≡ 64 }
    ensures wide_at_128 { assigned_value worked.names (worked.operands 128 0) 9 worked.shifted_sum ≡ 64 }
{}

/// `s >>> 1` of a signed operand of 8 bits copies the sign into a target of 9 bits; `{s} >>> 1` does not.
pub fn signed_shifts()
    ensures whole_at_255 { assigned_value worked.names (worked.signed_operand 255) 9 worked.half ≡ 511 }
    ensures whole_at_128 { assigned_value worked.names (worked.signed_operand 128) 9 worked.half ≡ 448 }
    ensures part_at_255 { assigned_value worked.names (worked.signed_operand 255) 8 worked.half_part ≡ 127 }
    ensures part_at_128 { assigned_value worked.names (worked.signed_operand 128) 8 worked.half_part ≡ 64 }
{}

/// `-1 < 1` is true, and `-8'd1 < 1` is not.
pub fn mixed_comparisons()
    ensures signed { self_value worked.names worked.no_operands (worked.minus_is_below worked.plain_one) ≡ 1 }
    ensures unsigned { self_value worked.names worked.no_operands (worked.minus_is_below worked.unsigned_one) ≡ 0 }
{}

/// Of signed operands of 8 bits: `-7 / 2 = -3`, `7 / -2 = -3`, `-7 % 2 = -1`, `7 % -2 = 1`, and `-128 / -1` wraps. Unsigned: `200 / 3 = 66`, `200 % 3 = 2`.
pub fn quotients()
    ensures negative_left { self_value worked.names worked.no_operands (worked.quotient_of (worked.signed_byte_of 249) (worked.signed_byte_of 2)) ≡ 253 }
    ensures negative_right { self_value worked.names worked.no_operands (worked.quotient_of (worked.signed_byte_of 7) (worked.signed_byte_of 254)) ≡ 253 }
    ensures rest_of_negative { self_value worked.names worked.no_operands (worked.remainder_of (worked.signed_byte_of 249) (worked.signed_byte_of 2)) ≡ 255 }
    ensures rest_by_negative { self_value worked.names worked.no_operands (worked.remainder_of (worked.signed_byte_of 7) (worked.signed_byte_of 254)) ≡ 1 }
    ensures wraps { self_value worked.names worked.no_operands (worked.quotient_of (worked.signed_byte_of 128) (worked.signed_byte_of 255)) ≡ 128 }
    ensures unsigned { self_value worked.names worked.no_operands (worked.quotient_of (worked.byte_of 200) (worked.byte_of 3)) ≡ 66 }
    ensures unsigned_rest { self_value worked.names worked.no_operands (worked.remainder_of (worked.byte_of 200) (worked.byte_of 3)) ≡ 2 }
{}

/// In 8 bits: `3 ** 4 = 81`, `3 ** 6 = 729`, which is cut to 217, and `-2 ** 3 = -8`.
pub fn powers()
    ensures fits { self_value worked.names worked.no_operands (worked.power_of (worked.byte_of 3) (worked.byte_of 4)) ≡ 81 }
    ensures cut { self_value worked.names worked.no_operands (worked.power_of (worked.byte_of 3) (worked.byte_of 6)) ≡ 217 }
    ensures negative { self_value worked.names worked.no_operands (worked.power_of (worked.signed_byte_of 254) (worked.byte_of 3)) ≡ 248 }
{}

/// `{3{2'b10}}` is 6'b101010, which is 42, with no sign: widened it stays 42.
pub fn replications()
    ensures alone { self_value worked.names worked.no_operands (worked.copies_of (worked.byte_of 3) worked.two_bits) ≡ 42 }
    ensures widened { assigned_value worked.names worked.no_operands 9 (worked.copies_of (worked.byte_of 3) worked.two_bits) ≡ 42 }
{}

/// Of `v = 8'hA5` over `[7:0]`: `v[7:4] = 10`, `v[3:0] = 5`, `v[2 +: 4] = 9` and `v[5 -: 4] = 9`. Bits out of range read 0.
pub fn parts()
    ensures high { self_value worked.part_names worked.part_values (worked.of_v (worked.part_of 7 4)) ≡ 10 }
    ensures low { self_value worked.part_names worked.part_values (worked.of_v (worked.part_of 3 0)) ≡ 5 }
    ensures above { self_value worked.part_names worked.part_values (worked.of_v (worked.part_of 9 6)) ≡ 2 }
    ensures upward { self_value worked.part_names worked.part_values (worked.of_v (worked.up_from (worked.byte_of 2) 4)) ≡ 9 }
    ensures downward { self_value worked.part_names worked.part_values (worked.of_v (worked.down_from (worked.byte_of 5) 4)) ≡ 9 }
    ensures below { self_value worked.part_names worked.part_values (worked.of_v (worked.up_from worked.minus_one 2)) ≡ 2 }
    ensures parameter { self_value worked.part_names worked.part_values (worked.of_p (worked.part_of 7 4)) ≡ 10 }
{}

/// Of `u = 8'hA5` over `[0:7]`: `u[0:3] = 10`, `u[2 +: 4] = 9`, `u[5 -: 4] = 9`, and `u[6 +: 4] = 4`, of which two bits are out of range.
pub fn ascending_parts()
    ensures high { self_value worked.part_names worked.part_values (worked.of_u (worked.part_of 0 3)) ≡ 10 }
    ensures upward { self_value worked.part_names worked.part_values (worked.of_u (worked.up_from (worked.byte_of 2) 4)) ≡ 9 }
    ensures downward { self_value worked.part_names worked.part_values (worked.of_u (worked.down_from (worked.byte_of 5) 4)) ≡ 9 }
    ensures past { self_value worked.part_names worked.part_values (worked.of_u (worked.up_from (worked.byte_of 6) 4)) ≡ 4 }
{}

/// Of a memory with `m[1] = 8'h2D`: `m[1][6:3] = 5` and `m[1][2 +: 3] = 3`.
pub fn word_parts()
    ensures part { self_value worked.part_names worked.part_values (worked.of_word (worked.part_of 6 3)) ≡ 5 }
    ensures upward { self_value worked.part_names worked.part_values (worked.of_word (worked.up_from (worked.byte_of 2) 3)) ≡ 3 }
{}
