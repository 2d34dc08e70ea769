//! The names of the wires of an emitted design: texts with numbers behind them.

ghost use Rattle.std.specs.Prelude.{◌≡◌, ◌++◌, ◌<◌, ℕ, List, decimal, false, length, slice_index_or, IfOk};
ghost use Rattle.std.specs.String.{string_bytes};
ghost use Rattle.emitted_names.specs.Named.{AreNumbered, AreNamesFor};

use crate::NoMemory;
use crate::keeping::check_nodes;
use crate::ways::{Way, all_ways};
use crate::words::{PartName, all_words};
use ila_model::IlaModel;
use std::alloc::Global;

/// The names of the wires of an emitted design, from which its tree borrows.
#[derive(Drop)]
pub struct ModuleNames {
    /// Of the terms, by their ids.
    pub terms: Vec<String>,
    /// That of the last so many instructions none decodes.
    pub nones: Vec<String>,
    /// That of the last so many instructions exactly one decodes.
    pub ones: Vec<String>,
    /// Of the words of memories at the addresses of loads, by the ids of the loads.
    pub words: Vec<Vec<PartName>>,
    /// Of the ways by which memories are updated, by the numbers of the instructions.
    pub ways: Vec<Vec<Way>>,
}

/// The text with a number behind it.
fn numbered_name(alloc: Global, text: &str, number: usize) -> Result<String, NoMemory>
    ensures { IfOk result (λ s. string_bytes s ≡ text.now ++ decimal number) }
{
    let name = format!(in alloc; "{text}{number}")?;
    Ok(name)
}

/// The text with each number below a count behind it.
fn numbered(alloc: Global, text: &str, count: usize) -> Result<Vec<String>, NoMemory>
    ensures { IfOk result (λ v. AreNumbered text.now count v.items) }
{
    let mut names = Vec::new(alloc);
    for number in 0..count {
        let name = numbered_name(alloc, text, number)?;
        names.push(name)?;
    }
    Ok(names)
}

/// The names of the wires of the model's emitted design, in which the marked terms are kept.
pub fn module_names(alloc: Global, model: &IlaModel, keep: &[bool]) -> Result<ModuleNames, NoMemory>
    ensures { IfOk result (λ n. AreNamesFor model.now.parts (λ k. slice_index_or keep.now k false) n.terms.items n.nones.items n.ones.items n.words.items n.ways.items) }
{
    check_nodes(&model.parts.terms);
    let instructions = model.parts.instructions.as_slice();
    let count = instructions.len() + 1;
    let terms = numbered(alloc, "wb_t", model.parts.terms.len() as usize)?;
    let nones = numbered(alloc, "wb_none_", count)?;
    let ones = numbered(alloc, "wb_one_", count)?;
    let words = all_words(alloc, &model.parts.terms, keep)?;
    let ways = all_ways(alloc, &model.parts.terms, instructions)?;
    Ok(ModuleNames {
        terms,
        nones,
        ones,
        words,
        ways,
    })
}

/// The name with a number.
pub fn name_at<'n>(names: &'n [String], number: usize) -> &'n str
    requires { number < length names.now }
    ensures { (text : List ℕ) (count : ℕ) → AreNumbered text count names.now → number < count → result.now ≡ text ++ decimal number }
{
    names[number].as_str()
}
