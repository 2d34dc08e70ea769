//! Targets and statements of a module lowered to terms: what each name, and each register after the edge, is worth after them.

ghost use Rattle.std.specs.Prelude.{◌≡◌, ◌≤◌, ℕ, OnOk, OnErr};
ghost use Rattle.wb_values.specs.Value.{word};
ghost use Rattle.verilog_meaning.specs.Statement.{target_width};
ghost use Rattle.v_syntax.specs.Tree.{target_of, statement_of};
ghost use Rattle.v_value.specs.Scope.{scope_at};
ghost use Rattle.v_value.specs.Narrow.{HasNarrowObjects};
ghost use Rattle.v_operators.specs.Meaning.{Grows, IsOfSort};
ghost use Rattle.v_lower.specs.Lowered.{HasImages};
ghost use Rattle.v_lower.specs.Table.{images_at};
ghost use Rattle.v_write.specs.Sound.{IsSoundTarget, IsSoundStatement};
ghost use Rattle.v_write.specs.Blocks.{IsTargetWritten, IsStatementLowered};

use crate::NoMemory;
use crate::preparing::add_parts;
use crate::statement::run_statement;
use crate::writing::write_parts;
use std::alloc::{AllocError, Global};
use v_lower::NamedTerms;
use v_syntax::tree::{Statement, Target};
use v_value::scope::Scope;
use wb_terms::{TermId, Terms};

/// Writes a number to a target. Where memory runs out, the store and the table may have further terms.
fn write_number<'s>(
    alloc: Global,
    target: &Target<'s>,
    scope: &Scope<'_>,
    number: TermId,
    width: u32,
    table: &mut NamedTerms<'s>,
    terms: &mut Terms,
) -> Result<(), NoMemory>
    requires objects { HasNarrowObjects (scope_at scope.now) }
    requires known { HasImages (scope_at scope.now) (images_at table.old) terms.old }
    requires sound { IsSoundTarget (scope_at scope.now) (target_of target.now) }
    requires number { IsOfSort terms.old number.0 (word width) }
    requires width { width ≡ target_width (scope_at scope.now) (target_of target.now) }
    ensures grows { Grows terms.old terms.new }
    ensures written { OnOk result (IsTargetWritten (scope_at scope.now) (images_at table.old) terms.old (target_of target.now) number.0 width (images_at table.new) terms.new) }
{
    let mut parts = Vec::new(alloc);
    add_parts(target, scope, table, terms, &mut parts)?;
    write_parts(scope, table, terms, &parts, number, width, None)?;
    Ok(())
}

/// Writes a number, the term of a word as wide as the target, to a target (1364-2005, 6.1 and 9.2): the names of the target get the
/// terms of what they hold afterwards. Indexes are read in the table as it was; bits and words out of range are not written, and of
/// a bit that is named twice the leftmost part's value stays. Where memory runs out, the store is as it was, and the table may have
/// any terms.
pub fn write_target<'s>(
    alloc: Global,
    target: &Target<'s>,
    scope: &Scope<'_>,
    number: TermId,
    width: u32,
    table: &mut NamedTerms<'s>,
    terms: &mut Terms,
) -> Result<(), NoMemory>
    requires objects { HasNarrowObjects (scope_at scope.now) }
    requires known { HasImages (scope_at scope.now) (images_at table.old) terms.old }
    requires sound { IsSoundTarget (scope_at scope.now) (target_of target.now) }
    requires number { IsOfSort terms.old number.0 (word width) }
    requires width { width ≡ target_width (scope_at scope.now) (target_of target.now) }
    ensures grows { Grows terms.old terms.new }
    ensures written { OnOk result (IsTargetWritten (scope_at scope.now) (images_at table.old) terms.old (target_of target.now) number.0 width (images_at table.new) terms.new) }
    ensures kept { OnErr result (terms.new ≡ terms.old) }
{
    let before = terms.len();
    match write_number(alloc, target, scope, number, width, table, terms) {
        Ok(()) => Ok(()),
        Err(_) => {
            terms.cut(before);
            Err(AllocError)
        }
    }
}

/// Lowers a statement (1364-2005, 9.2 to 9.5). Blocking assignments give names of the table the terms of what they hold afterwards;
/// nonblocking ones give names of the second table the terms of what they hold after the updates, with indexes and values as they
/// are in the first where the assignment stands. Where memory runs out, the store is as it was, and the tables may have any terms.
pub fn lower_statement<'s>(
    alloc: Global,
    statement: &Statement<'s>,
    scope: &Scope<'_>,
    table: &mut NamedTerms<'s>,
    next: &mut NamedTerms<'s>,
    terms: &mut Terms,
) -> Result<(), NoMemory>
    requires objects { HasNarrowObjects (scope_at scope.now) }
    requires known { HasImages (scope_at scope.now) (images_at table.old) terms.old }
    requires known_next { HasImages (scope_at scope.now) (images_at next.old) terms.old }
    requires sound { IsSoundStatement (scope_at scope.now) (statement_of statement.now) }
    ensures grows { Grows terms.old terms.new }
    ensures lowered { OnOk result (IsStatementLowered (scope_at scope.now) (images_at table.old) (images_at next.old) terms.old (statement_of statement.now) (images_at table.new) (images_at next.new) terms.new) }
    ensures kept { OnErr result (terms.new ≡ terms.old) }
{
    let before = terms.len();
    match run_statement(alloc, statement, scope, table, next, terms, None) {
        Ok(()) => Ok(()),
        Err(_) => {
            terms.cut(before);
            Err(AllocError)
        }
    }
}
