//! Numbers written to the targets of continuous assignments, whose parts are at known places.

ghost use Rattle.std.specs.Prelude.{◌≡◌, ◌+◌, ◌≤◌, ◌/◌, ◌%◌, ◌^◌, ◌∷◌, [], Some, IsSome, IfOk, OnOk};
ghost use Rattle.wb_values.specs.Value.{word};
ghost use Rattle.verilog_trees.specs.Syntax.{name as named};
ghost use Rattle.verilog_meaning.specs.Expression.{no_values, selects_width};
ghost use Rattle.verilog_meaning.specs.Statement.{named_place, places, all_places, target_width, targets_width};
ghost use Rattle.v_syntax.specs.Tree.{selects_of, target_of};
ghost use Rattle.v_value.specs.Scope.{scope_at};
ghost use Rattle.v_value.specs.Narrow.{IsNarrow, HasNarrowObjects};
ghost use Rattle.v_statement.specs.Statements.{target_list};
ghost use Rattle.v_operators.specs.Meaning.{Grows, IsOfSort, Makes};
ghost use Rattle.v_lower.specs.Lowered.{HasImages};
ghost use Rattle.v_lower.specs.Table.{images_at};
ghost use Rattle.v_flow.specs.Narrow.{HasNarrowParts, HaveNarrowParts};
ghost use Rattle.v_settle.specs.Drivers.{IsNet, HasOneSelect, IsNetTarget, AreNetTargets, IsNetChanged, IsPlaceWritten, AreBitsWritten};

use crate::NoMemory;
use crate::width::{part_span, place_width};
use v_bits::fixed_written;
use v_lower::NamedTerms;
use v_operators::part;
use v_syntax::tree::{Selects, Target};
use v_value::scope::Scope;
use v_value::width::object_width;
use wb_terms::{TermId, Terms};

/// So many bits of a number of `width` bits, from a place on. (The same function is private in `v_write`.)
fn piece(
    terms: &mut Terms,
    number: TermId,
    width: u32,
    low: u32,
    count: u32,
) -> Result<TermId, NoMemory>
    requires number { IsOfSort terms.old number.0 (word width) }
    requires some_bits { 1 ≤ count }
    requires within { low + count ≤ width }
    ensures grows { Grows terms.old terms.new }
    ensures made { IfOk result (λ r. Makes terms.old terms.new number.0 width r.0 count (λ x. x / 2 ^ low % 2 ^ count)) }
{
    if count == width {
        return Ok(number);
    }
    let id = part(terms, number, width, low + count - 1, low)?;
    Ok(id)
}

/// The term of a name that has one.
fn term_of(table: &NamedTerms<'_>, name: &str) -> TermId
    requires { IsSome (images_at table.now name.now) }
    ensures { images_at table.now name.now ≡ Some result.0 }
{
    match table.term(name) {
        Some(id) => id,
        None => unreachable!(),
    }
}

/// The term of a net after a number was written to its bits at known places.
fn replaced(
    selects: &Selects<'_>,
    name: &str,
    scope: &Scope<'_>,
    table: &NamedTerms<'_>,
    terms: &mut Terms,
    number: TermId,
) -> Result<TermId, NoMemory>
    requires objects { HasNarrowObjects (scope_at scope.now) }
    requires known { HasImages (scope_at scope.now) (images_at table.now) terms.old }
    requires net { IsNet (scope_at scope.now) name.now }
    requires one { HasOneSelect (selects_of selects.now) }
    requires narrow { IsNarrow (scope_at scope.now) (named name.now (selects_of selects.now)) }
    requires number { IsOfSort terms.old number.0 (word (selects_width (scope_at scope.now) (scope_at scope.now name.now) (selects_of selects.now))) }
    ensures grows { Grows terms.old terms.new }
    ensures changed { IfOk result (λ r. IsNetChanged (scope_at scope.now) (images_at table.now) terms.old (named_place (scope_at scope.now) no_values name.now (selects_of selects.now)) number.0 terms.new r.0) }
{
    let span = part_span(selects, name, scope);
    let old = term_of(table, name);
    let width = object_width(scope.object(name));
    let id = fixed_written(terms, old, width, number, span)?;
    Ok(id)
}

/// The term of a net after a number was written to some of its bits: the number itself, where these are all.
fn changed(
    selects: &Selects<'_>,
    name: &str,
    scope: &Scope<'_>,
    table: &NamedTerms<'_>,
    terms: &mut Terms,
    number: TermId,
) -> Result<TermId, NoMemory>
    requires objects { HasNarrowObjects (scope_at scope.now) }
    requires known { HasImages (scope_at scope.now) (images_at table.now) terms.old }
    requires net { IsNet (scope_at scope.now) name.now }
    requires one { HasOneSelect (selects_of selects.now) }
    requires narrow { IsNarrow (scope_at scope.now) (named name.now (selects_of selects.now)) }
    requires number { IsOfSort terms.old number.0 (word (selects_width (scope_at scope.now) (scope_at scope.now name.now) (selects_of selects.now))) }
    ensures grows { Grows terms.old terms.new }
    ensures changed { IfOk result (λ r. IsNetChanged (scope_at scope.now) (images_at table.now) terms.old (named_place (scope_at scope.now) no_values name.now (selects_of selects.now)) number.0 terms.new r.0) }
{
    match selects {
        Selects::Whole => Ok(number),
        _ => {
            let id = replaced(selects, name, scope, table, terms, number)?;
            Ok(id)
        }
    }
}

/// Writes a number to a part of a target.
fn write_part<'s>(
    selects: &Selects<'s>,
    name: &'s str,
    scope: &Scope<'_>,
    table: &mut NamedTerms<'s>,
    terms: &mut Terms,
    number: TermId,
) -> Result<(), NoMemory>
    requires objects { HasNarrowObjects (scope_at scope.now) }
    requires known { HasImages (scope_at scope.now) (images_at table.old) terms.old }
    requires net { IsNet (scope_at scope.now) name.now }
    requires one { HasOneSelect (selects_of selects.now) }
    requires narrow { IsNarrow (scope_at scope.now) (named name.now (selects_of selects.now)) }
    requires number { IsOfSort terms.old number.0 (word (selects_width (scope_at scope.now) (scope_at scope.now name.now) (selects_of selects.now))) }
    ensures grows { Grows terms.old terms.new }
    ensures written { OnOk result (IsPlaceWritten (scope_at scope.now) (images_at table.old) terms.old (named_place (scope_at scope.now) no_values name.now (selects_of selects.now)) number.0 (images_at table.new) terms.new) }
{
    let id = changed(selects, name, scope, table, terms, number)?;
    table.insert(name, id)?;
    Ok(())
}

/// Writes bits of a number of `width` bits, from a place on, to a part of a target. Answers the place after them.
fn write_place<'s>(
    selects: &Selects<'s>,
    name: &'s str,
    scope: &Scope<'_>,
    table: &mut NamedTerms<'s>,
    terms: &mut Terms,
    number: TermId,
    width: u32,
    low: u32,
) -> Result<u32, NoMemory>
    requires objects { HasNarrowObjects (scope_at scope.now) }
    requires known { HasImages (scope_at scope.now) (images_at table.old) terms.old }
    requires net { IsNet (scope_at scope.now) name.now }
    requires one { HasOneSelect (selects_of selects.now) }
    requires narrow { IsNarrow (scope_at scope.now) (named name.now (selects_of selects.now)) }
    requires number { IsOfSort terms.old number.0 (word width) }
    requires within { low + selects_width (scope_at scope.now) (scope_at scope.now name.now) (selects_of selects.now) ≤ width }
    ensures grows { Grows terms.old terms.new }
    ensures next { IfOk result (λ r. r ≡ low + selects_width (scope_at scope.now) (scope_at scope.now name.now) (selects_of selects.now)) }
    ensures written { OnOk result (AreBitsWritten (scope_at scope.now) (images_at table.old) terms.old (named_place (scope_at scope.now) no_values name.now (selects_of selects.now) ∷ [])
        (selects_width (scope_at scope.now) (scope_at scope.now name.now) (selects_of selects.now)) number.0 width low (images_at table.new) terms.new) }
{
    let count = place_width(selects, name, scope);
    let bits = piece(terms, number, width, low, count)?;
    write_part(selects, name, scope, table, terms, bits)?;
    Ok(low + count)
}

/// Writes bits of a number of `width` bits, from a place on, to a target. Answers the place after them.
#[cycle(writing)]
pub(crate) fn write_bits<'s>(
    target: &Target<'s>,
    scope: &Scope<'_>,
    table: &mut NamedTerms<'s>,
    terms: &mut Terms,
    number: TermId,
    width: u32,
    low: u32,
) -> Result<u32, NoMemory>
    requires objects { HasNarrowObjects (scope_at scope.now) }
    requires known { HasImages (scope_at scope.now) (images_at table.old) terms.old }
    requires nets { IsNetTarget (scope_at scope.now) (target_of target.now) }
    requires narrow { HasNarrowParts (scope_at scope.now) (target_of target.now) }
    requires number { IsOfSort terms.old number.0 (word width) }
    requires within { low + target_width (scope_at scope.now) (target_of target.now) ≤ width }
    ensures grows { Grows terms.old terms.new }
    ensures next { IfOk result (λ r. r ≡ low + target_width (scope_at scope.now) (target_of target.now)) }
    ensures written { OnOk result (AreBitsWritten (scope_at scope.now) (images_at table.old) terms.old (places (scope_at scope.now) no_values (target_of target.now))
        (target_width (scope_at scope.now) (target_of target.now)) number.0 width low (images_at table.new) terms.new) }
{
    match target {
        Target::Place(name, selects) => {
            let next = write_place(selects, name, scope, table, terms, number, width, low)?;
            Ok(next)
        }
        Target::Joined(targets) => {
            let next = write_all(targets, scope, table, terms, number, width, low)?;
            Ok(next)
        }
    }
}

/// The same to targets side by side, the last at the low end: it is written first, so that of a bit that stands twice the leftmost
/// part's value stays.
#[cycle(writing)]
fn write_all<'s>(
    targets: &[Target<'s>],
    scope: &Scope<'_>,
    table: &mut NamedTerms<'s>,
    terms: &mut Terms,
    number: TermId,
    width: u32,
    low: u32,
) -> Result<u32, NoMemory>
    requires objects { HasNarrowObjects (scope_at scope.now) }
    requires known { HasImages (scope_at scope.now) (images_at table.old) terms.old }
    requires nets { AreNetTargets (scope_at scope.now) (target_list targets.now) }
    requires narrow { HaveNarrowParts (scope_at scope.now) (target_list targets.now) }
    requires number { IsOfSort terms.old number.0 (word width) }
    requires within { low + targets_width (scope_at scope.now) (target_list targets.now) ≤ width }
    ensures grows { Grows terms.old terms.new }
    ensures next { IfOk result (λ r. r ≡ low + targets_width (scope_at scope.now) (target_list targets.now)) }
    ensures written { OnOk result (AreBitsWritten (scope_at scope.now) (images_at table.old) terms.old (all_places (scope_at scope.now) no_values (target_list targets.now))
        (targets_width (scope_at scope.now) (target_list targets.now)) number.0 width low (images_at table.new) terms.new) }
{
    let mut next = low;
    for i in (0..targets.len()).rev() {
        next = write_bits(&targets[i], scope, table, terms, number, width, next)?;
    }
    Ok(next)
}
