//! A check of a model against a design with a map: its report.

ghost use Rattle.std.specs.Prelude.{◌≡◌, ◌<◌, ◌++◌, length, map, IfOk, string_bytes};
ghost use Rattle.ila_model.specs.Model.{model_of};
ghost use Rattle.refinement.specs.Map.{Setting};
ghost use Rattle.refinement.specs.Soundness.{EveryRunRefines};
ghost use Rattle.reports.specs.Report.{IsReport};
ghost use Rattle.v_design.specs.Seen.{parts_of};
ghost use Rattle.mapped_designs.specs.Mapped.{IsSortedFor};
ghost use Rattle.mapped_designs.specs.View.{mapped_of};
ghost use Rattle.obligation_check.specs.Found.{spent_by};
ghost use Rattle.obligation_check.specs.Decided.{IsSettingBy};
ghost use Rattle.check_report.specs.Lines.{verdict_lines_by, cover_lines_by};
ghost use Rattle.check_report.specs.Totals.{total_by, ending_view};
ghost use Rattle.check_report.specs.Spending.{spent_among};

use crate::lines::{append_covers, append_verdicts};
use crate::spending::add_spent;
use crate::totals::{Counts, Ending, append_total, count_all, ending_of};
use ila_model::IlaModel;
use mapped_designs::MappedDesign;
use obligation_check::{Finding, Found, NoMemory, Spent, decide};
use obligation_lists::{MapCounts, Obligation, cover_names, obligations};
use soundness::laws::obligations_give_refinement;
use std::alloc::Global;
use trace_texts::TraceNames;
use trace_texts::laws::traces_tell;
use v_design::Design;

/// What a check prints, how it ends, and what shows that budgets were spent.
#[derive(Drop)]
pub struct Report {
    /// The lines of obligations and covers, and the total.
    pub text: Vec<u8>,
    pub ending: Ending,
    /// For each unknown line, in order, its formula and the lemmas on which the budget was spent.
    pub spent: Vec<Spent>,
}

/// The bound of each instruction of the model, in their order.
pub fn bounds(alloc: Global, mapped: &MappedDesign) -> Result<Vec<u64>, NoMemory>
    ensures { IfOk result (λ list. list.items ≡ map (λ i. i.bound) mapped.now.instructions.items) }
{
    let mut list = Vec::with_capacity(alloc, mapped.instructions.len())?;
    for instruction in &mapped.instructions {
        list.push(instruction.bound)?;
    }
    Ok(list)
}

/// The lines of what was found.
fn report_text(
    alloc: Global,
    design: &Design,
    obligations: &[Obligation<'_>],
    covers: &[String],
    found: &Found,
    counts: Counts,
    budget: u64,
) -> Result<Vec<u8>, NoMemory>
    requires obligations { length found.now.obligations.items ≡ length obligations.now }
    requires covers { length found.now.covers.items ≡ length covers.now }
    ensures { IfOk result (λ text. text.items
        ≡ verdict_lines_by (parts_of design.now) budget obligations.now found.now.obligations.items
        ++ cover_lines_by budget (map string_bytes covers.now) found.now.covers.items
        ++ total_by counts.proved counts.failed counts.unknown) }
{
    let names = TraceNames::new(alloc, design)?;
    let mut text = Vec::new(alloc);
    append_verdicts(
        alloc,
        &mut text,
        design,
        &names,
        obligations,
        &found.obligations,
        budget,
    )?;
    append_covers(&mut text, covers, &found.covers, budget)?;
    append_total(&mut text, counts)?;
    Ok(text)
}

/// What shows that budgets were spent, of the obligations and then of the covers.
fn all_spent(
    alloc: Global,
    obligations: Vec<Finding>,
    covers: Vec<Finding>,
) -> Result<Vec<Spent>, NoMemory>
    ensures { IfOk result (λ list. list.items ≡ spent_among obligations.items ++ spent_among covers.items) }
{
    let mut spent = Vec::new(alloc);
    add_spent(&mut spent, obligations)?;
    add_spent(&mut spent, covers)?;
    Ok(spent)
}

/// The report of a check with a budget of lemmas for each line, more than none: a line for each obligation, one for each instruction's
/// cover, and the total. It is that of every setting of the model and the design with its map.
pub fn check(
    alloc: Global,
    model: &IlaModel,
    mapped: &MappedDesign,
    budget: u64,
) -> Result<Report, NoMemory>
    requires sorted { IsSortedFor (model_of model.now) (mapped_of mapped.now) }
    requires budget { 0 < budget }
    ensures report { IfOk result (λ r. (s : Setting) → IsSettingBy (model_of model.now) (mapped_of mapped.now) s
        → IsReport s budget r.text.items (ending_view r.ending) (map (spent_by (mapped_of mapped.now).parts) r.spent.items)) }
    ensures refines { IfOk result (λ r. r.ending ≡ Ending.AllProved → (s : Setting)
        → IsSettingBy (model_of model.now) (mapped_of mapped.now) s → EveryRunRefines s) }
{
    let bounds = bounds(alloc, mapped)?;
    let counts = MapCounts {
        reset_cycles: mapped.reset_cycles,
        assume: mapped.assume.len(),
        invariants: mapped.invariants.len(),
        bounds: bounds.as_slice(),
    };
    let obligations = obligations(alloc, model, counts)?;
    let covers = cover_names(alloc, model)?;
    let found = decide(alloc, model, mapped, &obligations, budget)?;
    let totals = count_all(&found.obligations);
    let text = report_text(
        alloc,
        &mapped.design,
        &obligations,
        &covers,
        &found,
        totals,
        budget,
    )?;
    let spent = all_spent(alloc, found.obligations, found.covers)?;
    obligations_give_refinement();
    traces_tell();
    Ok(Report {
        text,
        ending: ending_of(totals),
        spent,
    })
}
