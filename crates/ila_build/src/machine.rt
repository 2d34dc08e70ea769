//! The terms of a machine: its definitions, its fetch, its valid condition, and its instructions.

ghost use Rattle.std.specs.Prelude.{◌≡◌, ◌≤◌, ◌+◌, true, length, None, IfOk, OnOk};
ghost use Rattle.ila_file.specs.View.{fetch_view, machine_view};
ghost use Rattle.ila_build.specs.Leaving.{IsLeft};
ghost use Rattle.ila_build.specs.Sizes.{fetch_size, own_size};
ghost use Rattle.ila_build.specs.Standing.{AreIn, IsGrown, IsTable};
ghost use Rattle.ila_build.specs.Building.{IsFetched, IsMachinePut, definitions_in};
ghost use Rattle.ila_build.specs.Knowing.{are_right, defined_names};
ghost use Rattle.ila_build.specs.Refusing.{IsDue, IsMachineDue, IsUnrefused};
ghost use Rattle.model_files.specs.Scope.{placed_fetch};

use crate::defining::put_definitions;
use crate::instructions::put_instructions;
use crate::putting::put_term;
use crate::seen::{definitions_of, fetch_of, instructions_of, valid_of};
use ila_file::{WrittenMachine, WrittenTerm};
use ila_model::{ChildId, Instruction};
use std::alloc::Global;
use std::collections::BTreeMap;
use wb_terms::{PutStop, TermId, Terms};

/// Puts the term of fetch, if there is one.
fn put_fetch<'v>(
    terms: &mut Terms,
    known: &BTreeMap<&'v [u8], TermId>,
    fetch: &Option<WrittenTerm<'v>>,
) -> Result<Option<TermId>, PutStop>
    requires { AreIn terms.old known.now None }
    ensures grown { IsGrown terms.old terms.new }
    ensures added { length terms.new.nodes ≤ length terms.old.nodes + fetch_size (fetch_view fetch.now) }
    ensures in_store { IfOk result (λ f. AreIn terms.new known.now f) }
    ensures fetched { IfOk result (λ f. IsFetched terms.old known.now terms.new (fetch_view fetch.now) f) }
    ensures unrefused { IsUnrefused result (IsDue terms.old known.now None (λ names ss. are_right (placed_fetch names (fetch_view fetch.now)) ≡ true)) }
{
    match fetch {
        Some(term) => {
            let id = put_term(terms, known, None, term)?;
            Ok(Some(id))
        }
        None => Ok(None),
    }
}

/// Puts the terms of a machine whose states are declared, and gives its valid condition and its instructions. Their
/// children have these ids.
pub fn put_machine<'v>(
    alloc: Global,
    terms: &mut Terms,
    known: &mut BTreeMap<&'v [u8], TermId>,
    machine: &WrittenMachine<'v>,
    links: &[Option<ChildId>],
) -> Result<(TermId, Vec<Instruction>), PutStop>
    requires { IsTable terms.old known.old }
    ensures grown { IsGrown terms.old terms.new }
    ensures left { IsLeft terms.old known.old terms.new known.new (defined_names (definitions_in (machine_view machine.now))) (own_size (machine_view machine.now)) }
    ensures table { OnOk result (IsTable terms.new known.new) }
    ensures put { IfOk result (λ p. IsMachinePut terms.old known.old terms.new known.new links.now (machine_view machine.now) p.0 p.1.items) }
    ensures unrefused { IsUnrefused result (IsMachineDue terms.old known.old (machine_view machine.now)) }
{
    put_definitions(terms, known, definitions_of(machine))?;
    let fetch = put_fetch(terms, known, fetch_of(machine))?;
    let valid = put_term(terms, known, fetch, valid_of(machine))?;
    let instructions = put_instructions(
        alloc,
        terms,
        known,
        fetch,
        instructions_of(machine),
        links,
    )?;
    Ok((valid, instructions))
}
