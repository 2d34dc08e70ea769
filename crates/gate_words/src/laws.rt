//! What chains of cells, parts and joins of words are as numbers.

ghost use Rattle.std.specs.Prelude.{◌≡◌, ◌+◌, ◌-◌, ◌*◌, ◌/◌, ◌%◌, ◌^◌, ◌≤◌, ◌&&◌, ◌==◌, ℕ, List, Bool, ◌++◌, true, false, cond, length, take, drop, replicate, nat_lt, slice_index_or};
ghost use Rattle.wb_values.specs.Number.{top_bit, word_not, word_and, word_or, word_xor, word_sub};
ghost use Rattle.gate_words.specs.Binary.{digit, number_of};
ghost use Rattle.gate_words.specs.Cells.{outputs, last_carry};
ghost use Rattle.gate_words.specs.declared.chains.Cell.TheVariants as cell;

/// What the cells that work on each place alone give as numbers. The carry does not count, but for the choice.
pub fn places_as_numbers()
    ensures complement { (c : Bool) (xs ys : List Bool) → length xs ≡ length ys → number_of (outputs cell.Not c xs ys) ≡ word_not (length xs) (number_of xs) }
    ensures conjunction { (c : Bool) (xs ys : List Bool) → length xs ≡ length ys → number_of (outputs cell.And c xs ys) ≡ word_and (number_of xs) (number_of ys) }
    ensures disjunction { (c : Bool) (xs ys : List Bool) → length xs ≡ length ys → number_of (outputs cell.Or c xs ys) ≡ word_or (number_of xs) (number_of ys) }
    ensures exclusive_or { (c : Bool) (xs ys : List Bool) → length xs ≡ length ys → number_of (outputs cell.Xor c xs ys) ≡ word_xor (number_of xs) (number_of ys) }
    ensures choice { (c : Bool) (xs ys : List Bool) → length xs ≡ length ys → outputs cell.Choose c xs ys ≡ cond c xs ys }
{}

/// What sums and differences give as numbers, and what the last carry of a comparison says.
pub fn carries_as_numbers()
    ensures sum { (c : Bool) (xs ys : List Bool) → length xs ≡ length ys → number_of (outputs cell.Sum c xs ys) ≡ (number_of xs + number_of ys + digit c) % 2 ^ length xs }
    ensures difference { (xs ys : List Bool) → length xs ≡ length ys → number_of (outputs cell.Difference true xs ys) ≡ word_sub (length xs) (number_of xs) (number_of ys) }
    ensures equal { (c : Bool) (xs ys : List Bool) → length xs ≡ length ys → last_carry cell.Same c xs ys ≡ (c && (number_of xs == number_of ys)) }
    ensures below { (c : Bool) (xs ys : List Bool) → length xs ≡ length ys → last_carry cell.Below c xs ys ≡ nat_lt (number_of xs) (number_of ys + digit c) }
{}

/// What parts, joins and copies of bits are as numbers.
pub fn parts_as_numbers()
    ensures joined { (xs ys : List Bool) → number_of (xs ++ ys) ≡ number_of ys * 2 ^ length xs + number_of xs }
    ensures low { (n : ℕ) (xs : List Bool) → n ≤ length xs → number_of (take n xs) ≡ number_of xs % 2 ^ n }
    ensures high { (n : ℕ) (xs : List Bool) → number_of (drop n xs) ≡ number_of xs / 2 ^ n }
    ensures zeros { (n : ℕ) → number_of (replicate n false) ≡ 0 }
    ensures ones { (n : ℕ) → number_of (replicate n true) + 1 ≡ 2 ^ n }
    ensures top { (xs : List Bool) → top_bit (length xs) (number_of xs) ≡ slice_index_or xs (length xs - 1) false }
{}
