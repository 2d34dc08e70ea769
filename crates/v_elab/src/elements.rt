//! What is elaborated in one scope, under the names of that scope.

ghost use Rattle.std.specs.Prelude.{◌≡◌, ◌≤◌, ℕ, List, IsTrue, drop, length, map, take};
ghost use Rattle.verilog_meaning.specs.Settled.{names_of};
ghost use Rattle.v_lower.specs.Table.{images_at};
ghost use Rattle.v_design.specs.Bits.{counted_bits};
ghost use Rattle.v_design.specs.Parts.{are_bits_for, are_terms_of, are_words, is_within};

use v_design::RegisterBits;
use v_lower::NamedTerms;
use wb_terms::{TermId, Terms};

/// What is elaborated in one scope. The names of the store are registers and then inputs, as they are called there.
#[derive(Drop)]
pub(crate) struct Elements<'s> {
    pub(crate) terms: Terms,
    pub(crate) stored: Vec<&'s str>,
    pub(crate) register_count: usize,
    pub(crate) next: Vec<TermId>,
    pub(crate) bits: Vec<RegisterBits>,
    pub(crate) table: NamedTerms<'s>,
    pub(crate) outputs: Vec<String>,
    pub(crate) ghost named: { names_of terms.names ≡ map (λ n. n.now) stored.items },
    pub(crate) ghost counted: { register_count ≤ length terms.names },
    pub(crate) ghost sorted: { IsTrue (are_terms_of terms (take register_count terms.names) (map (λ id. id.0) next.items)) },
    pub(crate) ghost counting: { IsTrue (are_bits_for (take register_count terms.names) (map counted_bits bits.items)) },
    pub(crate) ghost words: { IsTrue (are_words (drop register_count terms.names)) },
    pub(crate) ghost within: { (n : List ℕ) → IsTrue (is_within terms (images_at table n)) },
}
