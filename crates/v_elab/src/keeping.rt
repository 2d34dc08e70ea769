//! Terms of the values that names of a store have, with the bits that count.

ghost use Rattle.std.specs.Prelude.{◌≡◌, ◌≤◌, ◌<◌, length, IfOk};
ghost use Rattle.wb_values.specs.Value.{word, Valuation};
ghost use Rattle.model_meaning.specs.Term.{val};
ghost use Rattle.verilog_meaning.specs.Register.{word_count};
ghost use Rattle.wb_terms.specs.Graph.{tree};
ghost use Rattle.v_operators.specs.Meaning.{Grows, IsOfSort};
ghost use Rattle.v_value.specs.Scope.{object_of};
ghost use Rattle.v_lower.specs.Lowered.{IsSortOf};
ghost use Rattle.v_elab.specs.Kept.{named_at, IsMasked};
ghost use Rattle.v_elab.specs.Tables.{IsWordKept};

use crate::NoMemory;
use crate::memory::memory_kept;
use v_operators::{conjunction, constant, put};
use v_value::scope::Object;
use wb_bits::mask;
use wb_terms::{NameId, Node, Sort, TermId, Terms};

/// The term of a name of the store.
pub(crate) fn name_term(terms: &mut Terms, place: NameId) -> Result<TermId, NoMemory>
    requires { place.0 < length terms.old.names }
    ensures grows { Grows terms.old terms.new }
    ensures of_sort { IfOk result (λ r. IsOfSort terms.new r.0 (named_at terms.old place.0).1) }
    ensures value { IfOk result (λ r. (p : Valuation) → val (tree terms.new r.0) p ≡ p (named_at terms.old place.0).0) }
{
    // A declared sort is in range, so the node has one.
    let _sort = terms.name_sort(place);
    let id = put(terms, Node::Name(place))?;
    Ok(id)
}

/// The term of a name that is a word, cut to a mask.
fn word_kept(terms: &mut Terms, place: NameId, width: u32, bits: u128) -> Result<TermId, NoMemory>
    requires place { place.0 < length terms.old.names }
    requires named { (named_at terms.old place.0).1 ≡ word width }
    requires some_bits { 1 ≤ width }
    requires at_most_128 { width ≤ 128 }
    ensures grows { Grows terms.old terms.new }
    ensures kept { IfOk result (λ r. IsWordKept terms.new (named_at terms.old place.0).0 width bits r.0) }
{
    let id = name_term(terms, place)?;
    let all = mask(width);
    let kept = bits & all;
    if kept == all {
        return Ok(id);
    }
    let known = constant(terms, width, kept)?;
    let cut = conjunction(terms, id, known, width)?;
    Ok(cut)
}

/// The term of a name of the store, each word cut to its mask. Words past those of a memory are 0.
pub(crate) fn kept_term(
    terms: &mut Terms,
    place: NameId,
    object: Object,
    masks: &[u128],
) -> Result<TermId, NoMemory>
    requires place { place.0 < length terms.old.names }
    requires sort { IsSortOf (object_of object) (named_at terms.old place.0).1 }
    requires masks { length masks.now ≡ word_count (object_of object) }
    ensures grows { Grows terms.old terms.new }
    ensures masked { IfOk result (λ r. IsMasked (object_of object) masks.now terms.new place.0 r.0) }
{
    match terms.name_sort(place) {
        Sort::Word(width) => {
            let id = word_kept(terms, place, width, masks[0])?;
            Ok(id)
        }
        Sort::Memory(address_width, width) => {
            let id = memory_kept(terms, place, address_width, width, masks)?;
            Ok(id)
        }
        Sort::Truth => unreachable!(),
    }
}
