//! Names that are not among others.

ghost use Rattle.std.specs.Prelude.{◌≡◌, ◌&&◌, [], List, ℕ, IfOk, option_map};
ghost use Rattle.model_meaning.specs.Among.{is_name_in};
ghost use Rattle.ila_file.specs.Places.{spot_view};
ghost use Rattle.map_names.specs.Places.{first_outside, first_unknown};
ghost use Rattle.map_names.specs.Texts.{has_name, texts};

use ila_file::{NoMemory, Spot};
use std::alloc::Global;
use std::collections::BTreeSet;

/// The names as a set.
fn set_of<'a>(alloc: Global, names: &[&'a str]) -> Result<BTreeSet<&'a str>, NoMemory>
    ensures { IfOk result (λ s. (q : List ℕ) → has_name s q ≡ is_name_in q (texts names.now)) }
{
    let mut set = BTreeSet::new(alloc);
    for name in names {
        set.insert(*name)?;
    }
    Ok(set)
}

/// The first of these names that is none of those.
pub(crate) fn first_outside<'n>(
    alloc: Global,
    those: &[&str],
    these: &[&'n str],
) -> Result<Option<&'n str>, NoMemory>
    ensures { IfOk result (λ o. option_map (λ n. n.now) o ≡ first_outside (texts those.now) (texts these.now)) }
{
    let set = set_of(alloc, those)?;
    for name in these {
        if !set.contains(*name) {
            return Ok(Some(*name));
        }
    }
    Ok(None)
}

fn both(one: bool, other: bool) -> bool
    ensures { result ≡ (one && other) }
{
    one && other
}

/// The first entry that has none of the known names, or one that an entry before it has.
pub(crate) fn first_unknown<'n>(
    alloc: Global,
    known: &[&str],
    names: &[&'n str],
) -> Result<Option<Spot<'n>>, NoMemory>
    ensures { IfOk result (λ o. option_map spot_view o ≡ first_unknown (texts known.now) [] 0 (texts names.now)) }
{
    let set = set_of(alloc, known)?;
    let mut before = BTreeSet::new(alloc);
    for (index, name) in names.iter().enumerate() {
        let is_new = before.insert(*name)?;
        if !both(set.contains(*name), is_new) {
            return Ok(Some(Spot::item("instructions", index, Some(*name))));
        }
    }
    Ok(None)
}
