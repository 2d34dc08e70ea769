//! A design: its store of terms, and which of them stand for what.

ghost use Rattle.std.specs.Prelude.{◌≡◌, ◌≤◌, ◌<◌, ◌-◌, [], ℕ, List, IfSome, IsTrue, drop, length, map, option_map, slice_index_or, string_bytes, take};
ghost use Rattle.wb_values.specs.Value.{truth};
ghost use Rattle.v_design.specs.Table.{terms_at};
ghost use Rattle.v_design.specs.Bits.{counted_bits};
ghost use Rattle.v_design.specs.Parts.{are_bits_for, are_terms_of, are_words, is_within};

use crate::bits::RegisterBits;
use crate::place::PlaceTerms;
use crate::table::term_at;
use wb_terms::{NameId, TermId, Terms};

/// A design as terms. The names of its store are its registers, and then the inputs of its top but for the clock.
#[derive(Drop)]
pub struct Design {
    /// The names, and all terms of the design.
    pub terms: Terms,
    /// How many of the names are registers.
    pub register_count: usize,
    /// The term of each register's value after the clock's edge, in the order of the registers.
    pub next: Vec<TermId>,
    /// How the words of each register are addressed, and which of their bits count, in the order of the registers.
    pub bits: Vec<RegisterBits>,
    /// The terms of what nets and variables settle to, for each place where a module stands. The first place is that of the top.
    pub settled: Vec<PlaceTerms>,
    /// The outputs of the top, in the order of its ports.
    pub outputs: Vec<String>,
    pub ghost counted: { register_count ≤ length terms.names },
    pub ghost sorted: { IsTrue (are_terms_of terms (take register_count terms.names) (map (λ id. id.0) next.items)) },
    pub ghost counting: { IsTrue (are_bits_for (take register_count terms.names) (map counted_bits bits.items)) },
    pub ghost words: { IsTrue (are_words (drop register_count terms.names)) },
    pub ghost within: { (n : List ℕ) → IsTrue (is_within terms (terms_at settled.items n)) },
}

impl Design {
    ghost use Rattle.v_design.specs.Seen.{parts_of};

    /// How many registers the design has.
    pub fn register_count(&self) -> usize
        ensures { result ≡ (parts_of self.now).register_count }
    {
        self.register_count
    }

    /// How many inputs its top has, but for the clock.
    pub fn input_count(&self) -> usize
        ensures { result ≡ length self.now.terms.names - self.now.register_count }
    {
        self.terms.name_count() as usize - self.register_count
    }

    /// The dotted name of a register.
    pub fn register_name(&self, place: usize) -> &str
        requires { place < self.now.register_count }
        ensures { result.now ≡ (slice_index_or (take self.now.register_count self.now.terms.names) place ([], truth)).0 }
    {
        self.terms.name(NameId(place))
    }

    /// The term of what a net or variable settles to, by its dotted name, if the design has that.
    pub fn settled(&self, path: &str) -> Option<TermId>
        ensures term { option_map (λ id. id.0) result ≡ (parts_of self.now).settled path.now }
        ensures within { IfSome result (λ id. id.0 < length self.now.terms.nodes) }
    {
        term_at(&self.settled, path)
    }
}
