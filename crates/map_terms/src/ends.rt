//! How the instructions of a model end, as terms.

ghost use Rattle.std.specs.Prelude.{◌≡◌, ℕ, List, IfOk, map};
ghost use Rattle.verilog_meaning.specs.Expression.{Scope as PureScope};
ghost use Rattle.v_value.specs.Scope.{scope_at};
ghost use Rattle.v_value.specs.Narrow.{HasNarrowObjects};
ghost use Rattle.v_operators.specs.Meaning.{Grows};
ghost use Rattle.v_lower.specs.Lowered.{HasImages};
ghost use Rattle.v_lower.specs.Table.{images_at};
ghost use Rattle.map_trees.specs.View.{instruction_tree_view};
ghost use Rattle.mapped_designs.specs.View.{instruction_view};
ghost use Rattle.map_terms.specs.Places.{first_place, first_places_at};
ghost use Rattle.map_terms.specs.Terms.{AreEnds, IsEnd};
ghost use Rattle.map_terms.specs.Ready.{HasEnd, HaveEnds};
ghost use Rattle.map_terms.specs.View.{called_of};

use crate::NoMemory;
use crate::places::{FirstPlaces, places_of_instructions};
use ila_model::Instruction;
use map_trees::InstructionTree;
use mapped_designs::MappedInstruction;
use path_terms::condition;
use std::alloc::Global;
use v_lower::NamedTerms;
use v_value::scope::Scope;
use wb_terms::Terms;

/// How an instruction ends, as its first entry says.
fn end_of(
    entries: &[InstructionTree<'_>],
    scope: &Scope<'_>,
    table: &NamedTerms<'_>,
    places: &FirstPlaces<'_>,
    name: &str,
    terms: &mut Terms,
) -> Result<MappedInstruction, NoMemory>
    requires objects { HasNarrowObjects (scope_at scope.now) }
    requires known { HasImages (scope_at scope.now) (images_at table.now) terms.old }
    requires places { (n : List ℕ) → first_places_at places.now n ≡ first_place (map (λ e. e.name.now) entries.now) n }
    requires entry { (m : PureScope) × HasEnd (scope_at scope.now) m (map instruction_tree_view entries.now) name.now }
    ensures grows { Grows terms.old terms.new }
    ensures end { IfOk result (λ r. IsEnd (scope_at scope.now) (images_at table.now) terms.new (map instruction_tree_view entries.now) name.now (instruction_view r)) }
{
    match places.place(name) {
        Some(place) => match entries.get(place) {
            Some(entry) => {
                let commit = condition(&entry.commit, scope, table, terms)?;
                Ok(MappedInstruction {
                    commit,
                    bound: entry.bound,
                })
            }
            None => unreachable!(),
        },
        None => unreachable!(),
    }
}

/// How these instructions end, in their order.
pub(crate) fn ends(
    alloc: Global,
    entries: &[InstructionTree<'_>],
    scope: &Scope<'_>,
    table: &NamedTerms<'_>,
    instructions: &[Instruction],
    terms: &mut Terms,
) -> Result<Vec<MappedInstruction>, NoMemory>
    requires objects { HasNarrowObjects (scope_at scope.now) }
    requires known { HasImages (scope_at scope.now) (images_at table.now) terms.old }
    requires entries { (m : PureScope) × HaveEnds (scope_at scope.now) m (map instruction_tree_view entries.now) (map called_of instructions.now) }
    ensures grows { Grows terms.old terms.new }
    ensures ends { IfOk result (λ v. AreEnds (scope_at scope.now) (images_at table.now) terms.new (map instruction_tree_view entries.now) (map called_of instructions.now) (map instruction_view v.items)) }
{
    let places = places_of_instructions(alloc, entries)?;
    let mut list = Vec::new(alloc);
    for instruction in instructions {
        let end = end_of(
            entries,
            scope,
            table,
            &places,
            instruction.name.as_str(),
            terms,
        )?;
        list.push(end)?;
    }
    Ok(list)
}
