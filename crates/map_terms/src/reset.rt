//! Whether reset is active, as a term.

ghost use Rattle.std.specs.Prelude.{◌≡◌, IfOk, IsSome, Some, cond};
ghost use Rattle.wb_values.specs.Value.{word};
ghost use Rattle.map_file.specs.View.{level};
ghost use Rattle.v_design.specs.Seen.{parts_of};
ghost use Rattle.v_operators.specs.Meaning.{Grows, IsOfSort};
ghost use Rattle.map_terms.specs.Terms.{IsResetTerm};

use crate::NoMemory;
use v_design::Design;
use v_operators::{constant, is_equal};
use wb_terms::{TermId, Terms};

/// The term of what the reset's signal settles to.
pub(crate) fn signal_term(design: &Design, signal: &str) -> TermId
    requires { IsSome ((parts_of design.now).settled signal.now) }
    ensures { (parts_of design.now).settled signal.now ≡ Some result.0 }
{
    match design.settled(signal) {
        Some(id) => id,
        None => unreachable!(),
    }
}

/// Whether a signal of one bit is 1, or 0.
pub(crate) fn reset_term(
    terms: &mut Terms,
    signal: TermId,
    is_active_high: bool,
) -> Result<TermId, NoMemory>
    requires { IsOfSort terms.old signal.0 (word 1) }
    ensures grows { Grows terms.old terms.new }
    ensures reset { IfOk result (λ r. IsResetTerm terms.old signal.0 (level is_active_high) terms.new r.0) }
{
    let active = constant(terms, 1, u128::from(is_active_high))?;
    let id = is_equal(terms, signal, active, 1)?;
    Ok(id)
}
