//! The values of terms are of their sorts.

ghost use Rattle.condition_terms.specs.Told.{AreAllOfSorts};

use wb_terms::{TermId, Terms};

/// Looks once at each term of a store: values of all of them are of their sorts.
pub fn check_sorts(terms: &Terms)
    ensures { AreAllOfSorts terms.now }
{
    for id in 0..terms.len() as usize {
        let _node = terms.node(TermId(id));
    }
}
