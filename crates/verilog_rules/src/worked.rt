//! Worked cases: which rule small expressions break, and those beside them that break none.
ghost use Rattle.std.specs.Prelude.{◌≡◌, Some, None, codes};
ghost use Rattle.verilog_rules.specs.Expression.{refusal_of, undeclared_name, has_xz_digit, bad_constant_expression, wider_than_128, bad_select_of_name, bad_use_of_memory};
ghost use Rattle.verilog_rules.specs.Worked.{names, unknown, byte_net, wide_net, scalar, memory, three, eight, plain, byte, with_wild, with_unknown, alone, joined, copies, quotient, bit_of, part_of, part_of_word, up_from};

/// A name must be declared, also in an index, and numbers have no x, z and `?` digits.
pub fn names_and_digits()
    ensures undeclared { refusal_of names unknown ≡ Some undeclared_name }
    ensures index { refusal_of names (bit_of (codes "a") unknown) ≡ Some undeclared_name }
    ensures declared { refusal_of names (bit_of (codes "a") byte_net) ≡ None }
    ensures unknown_digit { refusal_of names (alone with_unknown) ≡ Some has_xz_digit }
    ensures wild_digit { refusal_of names with_wild ≡ Some has_xz_digit }
    ensures digits { refusal_of names (byte 255) ≡ None }
{}

/// Counts are constants of at least 1; `/` stands in constants alone, with a divisor that is not 0; parts have sizes.
pub fn constants()
    ensures net { refusal_of names (copies byte_net scalar) ≡ Some bad_constant_expression }
    ensures none { refusal_of names (copies (plain 0) scalar) ≡ Some bad_constant_expression }
    ensures parameter { refusal_of names (copies three byte_net) ≡ None }
    ensures quotient { refusal_of names (quotient byte_net (byte 2)) ≡ Some bad_constant_expression }
    ensures by_zero { refusal_of names (copies (quotient eight (plain 0)) scalar) ≡ Some bad_constant_expression }
    ensures by_two { refusal_of names (copies (quotient eight (plain 2)) scalar) ≡ None }
    ensures part { refusal_of names (alone (plain 5)) ≡ Some bad_constant_expression }
    ensures sized { refusal_of names (alone (byte 5)) ≡ None }
    ensures width { refusal_of names (up_from (codes "a") byte_net (plain 0)) ≡ Some bad_constant_expression }
    ensures base { refusal_of names (up_from (codes "a") byte_net three) ≡ None }
{}

/// Nothing has more than 128 bits. A count that has no value breaks the rule on constants and no other.
pub fn widths()
    ensures wide { refusal_of names (joined wide_net wide_net) ≡ Some wider_than_128 }
    ensures copies { refusal_of names (copies (plain 17) byte_net) ≡ Some wider_than_128 }
    ensures most { refusal_of names (copies (plain 16) byte_net) ≡ None }
    ensures no_width { refusal_of names (joined wide_net (copies byte_net wide_net)) ≡ Some bad_constant_expression }
{}

/// Selects stand after names with a range, one after what is no memory, and run as the range was declared.
pub fn selects()
    ensures scalar { refusal_of names (bit_of (codes "s") (plain 0)) ≡ Some bad_select_of_name }
    ensures second { refusal_of names (part_of_word (codes "a") 0 3 0) ≡ Some bad_select_of_name }
    ensures against { refusal_of names (part_of (codes "a") 0 7) ≡ Some bad_select_of_name }
    ensures along { refusal_of names (part_of (codes "a") 7 0) ≡ None }
    ensures ascending { refusal_of names (part_of (codes "up") 0 7) ≡ None }
    ensures against_ascending { refusal_of names (part_of (codes "up") 7 0) ≡ Some bad_select_of_name }
    ensures past { refusal_of names (part_of (codes "a") 9 6) ≡ None }
{}

/// A memory has an index first. Of several rules the first in the order of the kinds is answered.
pub fn memories()
    ensures whole { refusal_of names memory ≡ Some bad_use_of_memory }
    ensures part { refusal_of names (part_of (codes "m") 3 0) ≡ Some bad_use_of_memory }
    ensures word { refusal_of names (bit_of (codes "m") byte_net) ≡ None }
    ensures part_of_word { refusal_of names (part_of_word (codes "m") 1 3 0) ≡ None }
    ensures first_kind { refusal_of names (joined memory unknown) ≡ Some undeclared_name }
    ensures wider_first { refusal_of names (joined (joined wide_net wide_net) memory) ≡ Some wider_than_128 }
{}
