//! The places of a design's registers by their names.

ghost use Rattle.std.specs.Prelude.{ℕ, List, IfOk};
ghost use Rattle.v_design.specs.Seen.{parts_of};
ghost use Rattle.path_terms.specs.Places.{IsPlaceOf, places_at};

use crate::NoMemory;
use std::alloc::Global;
use std::collections::BTreeMap;
use v_design::Design;

/// The places of a design's registers, by their names. Contracts see the place of each name (`places_at`).
#[derive(Drop)]
pub(crate) struct RegisterPlaces<'d> {
    places: BTreeMap<&'d [u8], usize>,
}

impl<'d> RegisterPlaces<'d> {
    ghost use Rattle.std.specs.Prelude.{◌≡◌};

    /// The place of the register with this name.
    pub(crate) fn place(&self, name: &str) -> Option<usize>
        ensures { result ≡ places_at self.now name.now }
    {
        self.places.get(name.as_bytes()).copied()
    }
}

/// The places of the registers.
pub(crate) fn register_places(
    alloc: Global,
    design: &Design,
) -> Result<RegisterPlaces<'_>, NoMemory>
    ensures { IfOk result (λ r. (n : List ℕ) → IsPlaceOf (parts_of design.now) n (places_at r n)) }
{
    let mut places = BTreeMap::new(alloc);
    for place in 0..design.register_count() {
        places.insert(design.register_name(place).as_bytes(), place)?;
    }
    Ok(RegisterPlaces { places })
}
