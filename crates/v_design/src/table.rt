//! The terms of a design by its places. The top has the number 0.

ghost use Rattle.std.specs.Prelude.{◌≡◌, option_map};
ghost use Rattle.v_design.specs.Table.{place_in, term_in, terms_at};

use crate::place::PlaceTerms;
use wb_terms::TermId;

/// The number of the place that stands in a place as the instance of this name, if one does.
fn number_below(places: &[PlaceTerms], place: usize, instance: &str) -> Option<usize>
    ensures { result ≡ place_in places.now place instance.now }
{
    let around = places.get(place)?;
    around.below.get(instance).copied()
}

/// The term of a name in a place, if it has one there.
fn own_term(places: &[PlaceTerms], place: usize, name: &str) -> Option<TermId>
    ensures { option_map (λ id. id.0) result ≡ term_in places.now place name.now }
{
    let own = places.get(place)?;
    own.terms.get(name).copied()
}

/// The term of a dotted name, if it has one: the instances before its dots lead to a place.
pub(crate) fn term_at(places: &[PlaceTerms], path: &str) -> Option<TermId>
    ensures { option_map (λ id. id.0) result ≡ terms_at places.now path.now }
{
    let mut rest = path;
    let mut place = 0;
    'instances: while let Some((instance, more)) = rest.split_once('.') {
        place = number_below(places, place, instance)?;
        rest = more;
    }
    own_term(places, place, rest)
}
