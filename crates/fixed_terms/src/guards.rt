//! Conditions that are true where fixes do not hold.

ghost use Rattle.std.specs.Prelude.{◌≡◌, cond, not, IfOk};
ghost use Rattle.wb_values.specs.Value.{truth};
ghost use Rattle.term_copies.specs.Copies.{IsExtended};
ghost use Rattle.condition_terms.specs.Told.{IsTermOf, IsJoined, is_true};
ghost use Rattle.fixed_terms.specs.Fixed.{AreFixes, IsGuarded};

use crate::NoMemory;
use crate::fixes::Fix;
use condition_terms::{either, negation};
use wb_terms::{TermId, Terms};

/// A condition that is true where one of the fixes does not hold, and else is worth what `copy` is.
pub(crate) fn put_guards(terms: &mut Terms, copy: TermId, fixes: &[Fix]) -> Result<TermId, NoMemory>
    requires copy { IsTermOf terms.old copy.0 truth }
    requires fixes { AreFixes terms.old fixes.now }
    ensures extended { IsExtended terms.old terms.new }
    ensures guarded { IfOk result (λ r. IsGuarded terms.new fixes.now 0 copy.0 r.0) }
{
    let mut all = copy;
    for done in 0..fixes.len() {
        let place = fixes.len() - 1 - done;
        let outside = breaks(terms, fixes[place])?;
        all = either(terms, outside, all)?;
    }
    Ok(all)
}

/// Whether a fix does not hold.
fn breaks(terms: &mut Terms, fix: Fix) -> Result<TermId, NoMemory>
    requires { IsTermOf terms.old fix.condition.0 truth }
    ensures extended { IsExtended terms.old terms.new }
    ensures value { IfOk result (λ r. IsJoined terms.new r.0
        (λ v. cond fix.holds (not (is_true terms.old fix.condition.0 v)) (is_true terms.old fix.condition.0 v))) }
{
    if fix.holds {
        let id = negation(terms, fix.condition)?;
        return Ok(id);
    }
    Ok(fix.condition)
}
