//! That a design which is kept as terms is sound: its record says a part of it, and each term of its store another.

ghost use Rattle.std.specs.Prelude.{length, All};
ghost use Rattle.wb_terms.specs.Graph.{AllBelow, HasDistinctNames, names_of};
ghost use Rattle.v_design.specs.Seen.{parts_of};
ghost use Rattle.mapped_runs.specs.Sound.{IsSoundDesign};

use v_design::Design;
use wb_terms::{TermId, Terms};

/// The design is sound. Each term of its store is looked at once, and nothing is changed.
pub fn design_is_sound(design: &Design)
    ensures { IsSoundDesign (parts_of design.now) }
{
    names_are_declared(&design.terms);
}

/// Each term of a store that is a name has one of the store's names, and these are distinct.
pub fn names_are_declared(terms: &Terms)
    ensures declared { All (λ n. AllBelow (length terms.now.names) (names_of n)) terms.now.nodes }
    ensures distinct { HasDistinctNames terms.now.names }
{
    terms.name_count();
    for k in 0..terms.len() as usize {
        terms.node(TermId(k));
    }
}
