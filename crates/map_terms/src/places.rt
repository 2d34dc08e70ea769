//! The places of a map's entries by their names: of two entries of one name the first counts.

ghost use Rattle.std.specs.Prelude.{ℕ, List, IfOk, OnOk, ◌≡◌, map};
ghost use Rattle.map_trees.specs.View.{instruction_tree_view, mapped_tree_view};
ghost use Rattle.map_terms.specs.Places.{first_place, first_places_at};

use crate::NoMemory;
use map_trees::{InstructionTree, MappedTree};
use std::alloc::Global;
use std::collections::BTreeMap;

/// Where each name stands first. Contracts see the place of each name (`first_places_at`).
#[derive(Drop)]
pub(crate) struct FirstPlaces<'n> {
    places: BTreeMap<&'n [u8], usize>,
}

impl<'n> FirstPlaces<'n> {
    ghost use Rattle.std.specs.Prelude.{◌∷◌, ◌++◌, [], length};

    /// No name stands anywhere.
    fn new(alloc: Global) -> FirstPlaces<'n>
        ensures { (n : List ℕ) → first_places_at result n ≡ first_place [] n }
    {
        FirstPlaces {
            places: BTreeMap::new(alloc),
        }
    }

    /// Where the name stands first.
    pub(crate) fn place(&self, name: &str) -> Option<usize>
        ensures { result ≡ first_places_at self.now name.now }
    {
        self.places.get(name.as_bytes()).copied()
    }

    /// A name that stands after the others.
    fn add(&mut self, name: &'n str, place: usize) -> Result<(), NoMemory>
        ensures { OnOk result ((ns : List (List ℕ)) → ((n : List ℕ) → first_places_at self.old n ≡ first_place ns n) → place ≡ length ns
            → (n : List ℕ) → first_places_at self.new n ≡ first_place (ns ++ name.now ∷ []) n) }
    {
        if self.place(name).is_none() {
            self.places.insert(name.as_bytes(), place)?;
        }
        Ok(())
    }
}

/// The places of entries of states or inputs.
pub(crate) fn places_of_entries<'t>(
    alloc: Global,
    entries: &[MappedTree<'t>],
) -> Result<FirstPlaces<'t>, NoMemory>
    ensures { IfOk result (λ r. (n : List ℕ) → first_places_at r n ≡ first_place (map (λ e. e.name.now) entries.now) n) }
{
    let mut places = FirstPlaces::new(alloc);
    for place in 0..entries.len() {
        places.add(entries[place].name, place)?;
    }
    Ok(places)
}

/// The places of entries of instructions.
pub(crate) fn places_of_instructions<'t>(
    alloc: Global,
    entries: &[InstructionTree<'t>],
) -> Result<FirstPlaces<'t>, NoMemory>
    ensures { IfOk result (λ r. (n : List ℕ) → first_places_at r n ≡ first_place (map (λ e. e.name.now) entries.now) n) }
{
    let mut places = FirstPlaces::new(alloc);
    for place in 0..entries.len() {
        places.add(entries[place].name, place)?;
    }
    Ok(places)
}
