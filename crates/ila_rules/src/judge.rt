//! The first rule that a written model breaks.

ghost use Rattle.std.specs.Prelude.{◌≡◌, IfOk, None, option_map};
ghost use Rattle.model_files.specs.Meaning as meaning;
ghost use Rattle.model_files.specs.Meaning.{broken_rule};
ghost use Rattle.ila_file.specs.View.{model_view};
ghost use Rattle.ila_file.specs.Places.{found_text};
ghost use Rattle.ila_rules.specs.Flaws.{model_flaws};
ghost use Rattle.wb_values.specs.Choice.{first_of};
ghost use Rattle.ila_rules.specs.Refusals.{refusal_view, noted, IsNotedIn};
ghost use Rattle.ila_rules.specs.Rule.{rule_view};
ghost use Rattle.ila_rules.specs.View.{flaws_view};

use crate::declared_names::{Names, judge_names};
use crate::findings::Findings;
use crate::limits::{deeper_child, unlimited_child};
use crate::walk::{input_frame, judge_machine};
use crate::{ModelRefusal, ModelRule};
use ila_file::{NoMemory, Note, Place, WrittenModel};
use std::alloc::Global;

/// How deep children may nest.
const DEPTH: usize = 3;

/// What the states and terms of a whole file break.
fn judge_parts(alloc: Global, model: &WrittenModel<'_>) -> Result<Findings, NoMemory>
    ensures { IfOk result (λ f. flaws_view f ≡ model_flaws (model_view model.now)) }
{
    let mut findings = Findings::new(alloc);
    let inputs = input_frame(alloc, &model.inputs, &mut findings)?;
    let mut frames = Vec::new(alloc);
    frames.push(inputs)?;
    judge_machine(&model.machine, &mut frames, &mut findings)?;
    Ok(findings)
}

/// The refusal by a rule, where it is broken, and else what the rules after it say.
fn first(rule: ModelRule, note: Option<Note>, rest: Option<ModelRefusal>) -> Option<ModelRefusal>
    ensures { option_map refusal_view result ≡ first_of (noted (rule_view rule) (found_text note)) (option_map refusal_view rest) }
{
    match note {
        Some(note) => Some(ModelRefusal { rule, note }),
        None => rest,
    }
}

/// The first refusal in the order of the rules.
fn in_order(
    names: Names<'_>,
    findings: Findings,
    deep: Option<Note>,
    steps: Option<Note>,
) -> Option<ModelRefusal>
    ensures { option_map refusal_view result ≡
        first_of (noted meaning.BadName (found_text names.entry.bad))
        (first_of (noted meaning.DuplicateName (found_text names.entry.twice))
        (first_of (noted meaning.UnknownName (found_text findings.unknown_name))
        (first_of (noted meaning.BadWidth (found_text findings.bad_width))
        (first_of (noted meaning.BadSort (found_text findings.bad_sort))
        (first_of (noted meaning.BadNumber (found_text findings.bad_number))
        (first_of (noted meaning.MemoryCopy (found_text findings.memory_copy))
        (first_of (noted meaning.TooDeepChild (found_text deep))
        (first_of (noted meaning.BadSteps (found_text steps)) None)))))))) }
{
    let found = first(ModelRule::BadSteps, steps, None);
    let found = first(ModelRule::TooDeepChild, deep, found);
    let found = first(ModelRule::MemoryCopy, findings.memory_copy, found);
    let found = first(ModelRule::BadNumber, findings.bad_number, found);
    let found = first(ModelRule::BadSort, findings.bad_sort, found);
    let found = first(ModelRule::BadWidth, findings.bad_width, found);
    let found = first(ModelRule::UnknownName, findings.unknown_name, found);
    let found = first(ModelRule::DuplicateName, names.twice, found);
    first(ModelRule::BadName, names.bad, found)
}

/// The first rule that the written model breaks, from `BadName` on, with its place.
pub fn broken_rule(
    alloc: Global,
    model: &WrittenModel<'_>,
) -> Result<Option<ModelRefusal>, NoMemory>
    ensures rule { IfOk result (λ o. option_map (λ r. rule_view r.rule) o ≡ broken_rule (model_view model.now)) }
    ensures note { IfOk result (λ o. IsNotedIn (model_view model.now) (option_map refusal_view o)) }
{
    let names = judge_names(alloc, model)?;
    let findings = judge_parts(alloc, model)?;
    let deep = deeper_child(&model.machine, DEPTH, &mut Place::top(alloc))?;
    let steps = unlimited_child(&model.machine, &mut Place::top(alloc))?;
    Ok(in_order(names, findings, deep, steps))
}
