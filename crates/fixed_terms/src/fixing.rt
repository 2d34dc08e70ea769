//! A term over constants in place of what is fixed where it is false.

ghost use Rattle.std.specs.Prelude.{◌≡◌, ◌<◌, length, IfOk, Some};
ghost use Rattle.wb_values.specs.Value.{truth};
ghost use Rattle.model_meaning.specs.Term.{val, sort_of};
ghost use Rattle.wb_terms.specs.Graph.{tree};
ghost use Rattle.term_copies.specs.Copies.{IsExtended};
ghost use Rattle.run_terms.specs.Names.{FitsNames};
ghost use Rattle.condition_terms.specs.Told.{IsTermOf};

use crate::NoMemory;
use crate::copying::put_copy;
use crate::fixes::fixes_of;
use crate::guards::put_guards;
use crate::known::known_where_false;
use condition_terms::check_sorts;
use std::alloc::Global;
use wb_terms::{TermId, Terms};

/// A term of the same values. Names that have one value wherever the given term is false are replaced by this value: the new term says that
/// one of the conditions that fix them does not hold, or that the copy of the term is true. It is the given term itself where nothing is
/// fixed.
pub fn with_fixed(alloc: Global, terms: &mut Terms, id: TermId) -> Result<TermId, NoMemory>
    requires id { id.0 < length terms.old.nodes }
    requires sort { sort_of (tree terms.old id.0) ≡ Some truth }
    ensures extended { IsExtended terms.old terms.new }
    ensures term { IfOk result (λ r. IsTermOf terms.new r.0 truth) }
    ensures value { IfOk result (λ r. (v : _) → FitsNames terms.old.names v → val (tree terms.new r.0) v ≡ val (tree terms.old id.0) v) }
{
    check_sorts(terms);
    let known = known_where_false(alloc, terms, id)?;
    let fixes = fixes_of(alloc, terms, id, &known)?;
    if fixes.is_empty() {
        return Ok(id);
    }
    let copy = put_copy(alloc, terms, id, &fixes)?;
    check_sorts(terms);
    let all = put_guards(terms, copy, &fixes)?;
    Ok(all)
}
