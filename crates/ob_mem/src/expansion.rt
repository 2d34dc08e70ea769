//! A term of truth sort without memories, with the same value.

ghost use Rattle.std.specs.Prelude.{◌≡◌, ◌<◌, length, IfOk, OnOk, Some, true};
ghost use Rattle.wb_values.specs.Value.{truth, Valuation};
ghost use Rattle.model_meaning.specs.Term.{sort_of, val};
ghost use Rattle.wb_terms.specs.Graph.{tree};
ghost use Rattle.sat_gates.specs.Names.{is_blastable};
ghost use Rattle.sat_gates.specs.Cone.{IsCone, AreParts, places};
ghost use Rattle.ob_mem.specs.Words.{words_of, HasWords};
ghost use Rattle.ob_mem.specs.Spread.{GivesSorts, IsSpread};
ghost use Rattle.ob_mem.specs.Size.{IsSmall};

use crate::NoMemory;
use crate::images::{image, put_images};
use crate::names::{Named, with_words};
use crate::words::MemoryWord;
use sat_gates::cone;
use std::alloc::{AllocError, Global};
use wb_terms::{TermId, Terms};

/// A term without memories, in a store of its own.
#[derive(Drop)]
pub struct Expanded {
    /// The new store. It has the names of the old one in their places, then a name for each word of each memory.
    pub terms: Terms,
    /// The term without memories, in the new store.
    pub goal: TermId,
    /// The words of the memories, in the order of declaration and by ascending address.
    pub list: Vec<MemoryWord>,
}

/// A term without memories that has the value of a term of truth sort, wherever its memories are spread over words.
/// A load of 2^a words becomes 2^a - 1 choices, a store and a choice of memories become one for each word.
pub fn expand(alloc: Global, terms: &Terms, id: TermId) -> Result<Expanded, NoMemory>
    requires id { id.0 < length terms.now.nodes }
    requires sort { sort_of (tree terms.now id.0) ≡ Some truth }
    ensures list { IfOk result (λ e. e.list.items ≡ words_of 0 (length terms.now.names) terms.now.names) }
    ensures names { IfOk result (λ e. HasWords terms.now.names e.terms.names e.list.items) }
    ensures goal { IfOk result (λ e. e.goal.0 < length e.terms.nodes) }
    ensures sort { IfOk result (λ e. sort_of (tree e.terms e.goal.0) ≡ Some truth) }
    ensures blastable { IfOk result (λ e. is_blastable (tree e.terms e.goal.0) ≡ true) }
    ensures value { IfOk result (λ e. (v w : Valuation) → IsSpread terms.now.names e.terms.names e.list.items v w
        → val (tree e.terms e.goal.0) w ≡ val (tree terms.now id.0) v) }
    ensures spread { IfOk result (λ e. (v : Valuation) → GivesSorts terms.now.names v
        → (w : Valuation) × IsSpread terms.now.names e.terms.names e.list.items v w × GivesSorts e.terms.names w) }
    ensures size { IfOk result (λ e. IsSmall terms.now id.0 e.terms) }
    ensures gathered { IfOk result (λ e. (w : Valuation) → GivesSorts e.terms.names w
        → (v : Valuation) × IsSpread terms.now.names e.terms.names e.list.items v w) }
{
    let named = with_words(alloc, terms)?;
    let Named {
        terms: mut new,
        list,
        firsts,
    } = named;
    let words = list.as_slice();
    let places = firsts.as_slice();
    let ids = terms_under(alloc, terms, id)?;
    let images = put_images(alloc, &mut new, terms, words, places, &ids, id)?;
    let goal = image(&images, id);
    Ok(Expanded {
        terms: new,
        goal,
        list,
    })
}

/// The terms that a term stands on, by ascending id.
fn terms_under(alloc: Global, terms: &Terms, id: TermId) -> Result<Vec<TermId>, NoMemory>
    requires { id.0 < length terms.now.nodes }
    ensures exact { IfOk result (λ ids. IsCone terms.now id.0 (places ids.items)) }
    ensures parts { OnOk result (AreParts terms.now id.0) }
{
    match cone(alloc, terms, id) {
        Ok(ids) => Ok(ids),
        Err(_) => Err(AllocError),
    }
}
