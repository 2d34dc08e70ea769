//! The answer to a command on files that were read.

ghost use Rattle.std.specs.Prelude.{◌≡◌, ◌<◌, [], ◌∷◌, IfOk, IsTrue, map, length};
ghost use Rattle.ila_model.specs.Model.{model_of};
ghost use Rattle.refinement.specs.Map.{Setting};
ghost use Rattle.mapped_designs.specs.Mapped.{IsSortedFor};
ghost use Rattle.mapped_designs.specs.View.{mapped_of};
ghost use Rattle.obligation_check.specs.Decided.{IsSettingBy};
ghost use Rattle.wb_top.specs.Files.{first_long};
ghost use Rattle.wb_top.specs.Words.{is_command};
ghost use Rattle.wb_top.specs.Verbs.{verb_view};
ghost use Rattle.wb_top.specs.Showing.{told_of, status_by};
ghost use Rattle.wb_top.specs.Outcome.{IsAnswer, IsEnd, IsChecked, IsCheckedSetting, IsReported};

use crate::both::simulated_both;
use crate::cases::{Case, case_of};
use crate::emission::emitted;
use crate::length::first_long;
use crate::replaying::replayed;
use crate::rtl::simulated_rtl;
use crate::simulation::simulated;
use crate::status::{AllSpent, Status};
use crate::stop::NoMemory;
use crate::texts::{limit_of_check, limit_of_length};
use crate::verb::Verb;
use check_limits::limit_of;
use check_report::{Ending, check};
use ila_model::IlaModel;
use mapped_designs::MappedDesign;
use std::alloc::Global;

/// What a call answers and what it is to write.
#[derive(Drop)]
pub(crate) struct Outcome {
    pub(crate) status: Status,
    pub(crate) text: Vec<u8>,
    pub(crate) spent: Option<AllSpent>,
}

impl Outcome {
    /// An outcome beside whose text nothing is shown.
    pub(crate) fn plain(status: Status, text: Vec<u8>) -> Outcome
        ensures status { result.status ≡ status }
        ensures text { result.text.items ≡ text.items }
        ensures nothing { told_of result ≡ record { text = text.items; spent = [] } }
    {
        Outcome {
            status,
            text,
            spent: None,
        }
    }
}

/// The answer to a command on the contents of its files, in the order in which they were read, with their names. Of a file that is
/// too long the first bytes past the limit are enough.
pub(crate) fn answer(
    alloc: Global,
    verb: &Verb,
    names: &[String],
    contents: &[Vec<u8>],
) -> Result<Outcome, NoMemory>
    requires { IsTrue (is_command (verb_view verb.now) (length contents.now)) }
    ensures { IfOk result (λ o. IsAnswer (verb_view verb.now) (map (λ bytes. bytes.items) contents.now) o.status (told_of o)) }
{
    match first_long(contents) {
        Some(number) => {
            let text = limit_of_length(alloc, number)?;
            Ok(Outcome::plain(Status::Limit, text))
        }
        None => {
            let outcome = ended(alloc, verb, names, contents)?;
            Ok(outcome)
        }
    }
}

/// The answer to a command on files of which none is too long.
fn ended(
    alloc: Global,
    verb: &Verb,
    names: &[String],
    contents: &[Vec<u8>],
) -> Result<Outcome, NoMemory>
    requires { IsTrue (is_command (verb_view verb.now) (length contents.now)) }
    ensures { IfOk result (λ o. IsEnd (verb_view verb.now) (map (λ bytes. bytes.items) contents.now) o.status (told_of o)) }
{
    match verb {
        Verb::Check(budget) => match contents {
            [model, map, designs @ ..] => {
                checked(alloc, names_after(names, 2), model, map, designs, *budget)
            }
            _ => unreachable!(),
        },
        Verb::Simulate => match contents {
            [model, script] => simulated(alloc, model, script),
            _ => unreachable!(),
        },
        Verb::SimulateRtl(design) => match contents {
            [script, designs @ ..] => {
                simulated_rtl(alloc, names_after(names, 1), design, script, designs)
            }
            _ => unreachable!(),
        },
        Verb::Replay => match contents {
            [model, map, trace, designs @ ..] => {
                replayed(alloc, names_after(names, 3), model, map, trace, designs)
            }
            _ => unreachable!(),
        },
        Verb::SimulateBoth => match contents {
            [model, map, script, designs @ ..] => {
                simulated_both(alloc, names_after(names, 3), model, map, script, designs)
            }
            _ => unreachable!(),
        },
        Verb::Emit(map_only) => match contents {
            [model] => emitted(alloc, model, *map_only),
            _ => unreachable!(),
        },
    }
}

/// The names of the Verilog files: those after the first names.
fn names_after(names: &[String], count: usize) -> &[String] {
    &names[count.min(names.len())..]
}

/// A check of files of which none is too long, with the names of its Verilog files.
fn checked(
    alloc: Global,
    names: &[String],
    model: &[u8],
    map_file: &[u8],
    designs: &[Vec<u8>],
    budget: u64,
) -> Result<Outcome, NoMemory>
    requires { 0 < budget }
    ensures { IfOk result (λ o. IsChecked budget (model.now ∷ map_file.now ∷ map (λ d. d.items) designs.now) o.status (told_of o)) }
{
    match case_of(alloc, names, model, map_file, designs)? {
        Case::Setting(model, mapped) => {
            let outcome = checked_case(alloc, &model, mapped, budget)?;
            Ok(outcome)
        }
        Case::Refused(text) => Ok(Outcome::plain(Status::Refused, text)),
    }
}

/// A check of a model against a design with its map: the limit that they are over, or their report.
fn checked_case(
    alloc: Global,
    model: &IlaModel,
    mapped: MappedDesign,
    budget: u64,
) -> Result<Outcome, NoMemory>
    requires sorted { IsSortedFor (model_of model.now) (mapped_of mapped) }
    requires budget { 0 < budget }
    ensures { IfOk result (λ o. (s : Setting) → IsSettingBy (model_of model.now) (mapped_of mapped) s → IsCheckedSetting s budget o.status (told_of o)) }
{
    match limit_of(model, &mapped.design) {
        Some(limit) => {
            let text = limit_of_check(alloc, limit)?;
            Ok(Outcome::plain(Status::Limit, text))
        }
        None => {
            let outcome = reported(alloc, model, mapped, budget)?;
            Ok(outcome)
        }
    }
}

/// The report of a model and a design with its map.
fn reported(
    alloc: Global,
    model: &IlaModel,
    mapped: MappedDesign,
    budget: u64,
) -> Result<Outcome, NoMemory>
    requires sorted { IsSortedFor (model_of model.now) (mapped_of mapped) }
    requires budget { 0 < budget }
    ensures { IfOk result (λ o. (s : Setting) → IsSettingBy (model_of model.now) (mapped_of mapped) s → IsReported s budget o.status (told_of o)) }
{
    let report = check(alloc, model, &mapped, budget)?;
    Ok(Outcome {
        status: status_of(report.ending),
        text: report.text,
        spent: Some(AllSpent {
            design: mapped.design,
            entries: report.spent,
        }),
    })
}

/// The status of a report that ends so.
fn status_of(ending: Ending) -> Status
    ensures { result ≡ status_by ending }
{
    match ending {
        Ending::AllProved => Status::Done,
        Ending::SomeUnknown => Status::Unknown,
        Ending::SomeFailed => Status::Failed,
    }
}
