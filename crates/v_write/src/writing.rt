//! Numbers written to the parts of a target: the terms of its names afterwards.

ghost use Rattle.std.specs.Prelude.{◌≡◌, ◌<◌, ◌≤◌, ◌+◌, ◌/◌, ◌%◌, ◌^◌, ℕ, true, false, Some, IfOk, OnOk};
ghost use Rattle.wb_values.specs.Value.{word};
ghost use Rattle.v_value.specs.Scope.{scope_at};
ghost use Rattle.v_operators.specs.Meaning.{Grows, IsOfSort, Makes};
ghost use Rattle.v_lower.specs.Lowered.{HasImages, has_sort, has_number};
ghost use Rattle.v_lower.specs.Table.{images_at};
ghost use Rattle.v_write.specs.Parts.{IsPart, AreParts, counts};
ghost use Rattle.v_write.specs.Guard.{IsGuard};
ghost use Rattle.v_write.specs.Written.{IsPartWritten, ArePartsWritten};

use crate::NoMemory;
use crate::changing::{changed, guarded};
use crate::part::Part;
use v_lower::NamedTerms;
use v_operators::part;
use v_value::scope::Scope;
use wb_terms::{TermId, Terms};

/// The term of a name whose number is not known.
fn named(scope: &Scope<'_>, table: &NamedTerms<'_>, _terms: &Terms, name: &str) -> TermId
    requires known { HasImages (scope_at scope.now) (images_at table.now) _terms.now }
    requires sort { has_sort (scope_at scope.now name.now) ≡ true }
    requires no_number { has_number (scope_at scope.now name.now) ≡ false }
    ensures { images_at table.now name.now ≡ Some result.0 }
{
    match table.term(name) {
        Some(id) => id,
        None => unreachable!(),
    }
}

/// Writes a number to a part, where a condition holds. Where memory runs out, the table may have any terms.
pub(crate) fn write_part<'s>(
    scope: &Scope<'_>,
    table: &mut NamedTerms<'s>,
    terms: &mut Terms,
    part: &Part<'s>,
    number: TermId,
    guard: Option<TermId>,
) -> Result<(), NoMemory>
    requires known { HasImages (scope_at scope.now) (images_at table.old) terms.old }
    requires part { IsPart (scope_at scope.now) terms.old part.now }
    requires number { IsOfSort terms.old number.0 (word part.now.count) }
    requires guard { IsGuard terms.old guard }
    ensures grows { Grows terms.old terms.new }
    ensures written { OnOk result (IsPartWritten (scope_at scope.now) (images_at table.old) terms.old guard part.now number.0 (images_at table.new) terms.new) }
{
    let object = scope.object(part.name);
    let old = named(scope, table, terms, part.name);
    let new = changed(terms, object, part, old, number)?;
    let id = guarded(terms, guard, new, old)?;
    table.insert(part.name, id)?;
    Ok(())
}

/// So many bits of a number of `width` bits, from a place on.
fn piece(
    terms: &mut Terms,
    number: TermId,
    width: u32,
    low: u32,
    count: u32,
) -> Result<TermId, NoMemory>
    requires number { IsOfSort terms.old number.0 (word width) }
    requires some_bits { 1 ≤ count }
    requires within { low + count ≤ width }
    ensures grows { Grows terms.old terms.new }
    ensures made { IfOk result (λ r. Makes terms.old terms.new number.0 width r.0 count (λ x. x / 2 ^ low % 2 ^ count)) }
    ensures within { low + count ≤ width }
{
    if count == width {
        return Ok(number);
    }
    let id = part(terms, number, width, low + count - 1, low)?;
    Ok(id)
}

/// Writes a number of `width` bits to parts, the leftmost of which gets the high bits, where a condition holds: from the right, so
/// that of a bit that stands in two parts the leftmost part's value stays. Where memory runs out, the table may have any terms.
pub(crate) fn write_parts<'s>(
    scope: &Scope<'_>,
    table: &mut NamedTerms<'s>,
    terms: &mut Terms,
    parts: &[Part<'s>],
    number: TermId,
    width: u32,
    guard: Option<TermId>,
) -> Result<(), NoMemory>
    requires known { HasImages (scope_at scope.now) (images_at table.old) terms.old }
    requires parts { AreParts (scope_at scope.now) terms.old parts.now }
    requires number { IsOfSort terms.old number.0 (word width) }
    requires width { width ≡ counts parts.now }
    requires guard { IsGuard terms.old guard }
    ensures grows { Grows terms.old terms.new }
    ensures written { OnOk result (ArePartsWritten (scope_at scope.now) (images_at table.old) terms.old guard parts.now number.0 width (images_at table.new) terms.new) }
{
    let mut low = 0;
    for i in 0..parts.len() {
        let part = &parts[parts.len() - 1 - i];
        let bits = piece(terms, number, width, low, part.count)?;
        write_part(scope, table, terms, part, bits, guard)?;
        low += part.count;
    }
    Ok(())
}
