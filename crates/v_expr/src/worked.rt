//! Expressions that were read by hand, as laws: what the rules of reading say of them.

ghost use Rattle.std.specs.Prelude.{◌≡◌, Some};
ghost use Rattle.v_expr.specs.Reading.{expression_at};
ghost use Rattle.v_expr.specs.Worked.{end, text_of_left_association, left_association, text_of_power_to_the_left, power_to_the_left, text_of_product_in_sum, product_in_sum, text_of_power_in_product, power_in_product, text_of_sign_of_base, sign_of_base, text_of_choice_to_the_right, choice_to_the_right, text_of_choice_in_choice, choice_in_choice, text_of_every_level, every_level, text_of_brackets, brackets, text_of_prefixes, prefixes, text_of_copies, copies, text_of_parts, parts, text_of_conversion, conversion};

/// `a - b - c`
pub fn left_association_is_read()
    ensures { expression_at 4 text_of_left_association ≡ Some (left_association, end) }
{}

/// `a ** b ** c`
pub fn power_to_the_left_is_read()
    ensures { expression_at 4 text_of_power_to_the_left ≡ Some (power_to_the_left, end) }
{}

/// `a + b * c`
pub fn product_in_sum_is_read()
    ensures { expression_at 4 text_of_product_in_sum ≡ Some (product_in_sum, end) }
{}

/// `a * b ** c`
pub fn power_in_product_is_read()
    ensures { expression_at 4 text_of_power_in_product ≡ Some (power_in_product, end) }
{}

/// `- a ** - b`
pub fn sign_of_base_is_read()
    ensures { expression_at 4 text_of_sign_of_base ≡ Some (sign_of_base, end) }
{}

/// `a ? b : c ? d : e`
pub fn choice_to_the_right_is_read()
    ensures { expression_at 4 text_of_choice_to_the_right ≡ Some (choice_to_the_right, end) }
{}

/// `a ? b ? c : d : e`
pub fn choice_in_choice_is_read()
    ensures { expression_at 4 text_of_choice_in_choice ≡ Some (choice_in_choice, end) }
{}

/// `a || b && c | d ^ e & a == b < c << d + e * a ** b`
pub fn every_level_is_read()
    ensures { expression_at 4 text_of_every_level ≡ Some (every_level, end) }
{}

/// `( a + b ) * c`
pub fn brackets_is_read()
    ensures { expression_at 4 text_of_brackets ≡ Some (brackets, end) }
{}

/// `! ~ & a`
pub fn prefixes_is_read()
    ensures { expression_at 4 text_of_prefixes ≡ Some (prefixes, end) }
{}

/// `{ 2 { a , b } }`
pub fn copies_is_read()
    ensures { expression_at 4 text_of_copies ≡ Some (copies, end) }
{}

/// `{ a , b [ 1 ] [ c +: 2 ] }`
pub fn parts_is_read()
    ensures { expression_at 4 text_of_parts ≡ Some (parts, end) }
{}

/// `$signed ( a ) < b`
pub fn conversion_is_read()
    ensures { expression_at 4 text_of_conversion ≡ Some (conversion, end) }
{}
