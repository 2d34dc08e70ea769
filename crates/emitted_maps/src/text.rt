//! The map of an emitted design as text.

ghost use Rattle.std.specs.Prelude.{◌≡◌, ◌++◌, ◌∷◌, [], map, IfOk, OnOk, codes, decimal, string_bytes};
ghost use Rattle.model_meaning.specs.Model.{instructions_in};
ghost use Rattle.reports.specs.Report.{quoted, in_brackets, in_braces, member_text};
ghost use Rattle.ila_model.specs.Model.{model_of};
ghost use Rattle.emitted_designs.specs.Map.{text_members, written_by_their_names, entry_text, written_entry_for, written_map, map_text};
ghost use Rattle.emitted_maps.specs.Commas.{comma_behind};

use crate::bounds::{bound_of, has_children};
use crate::names::{NoMemory, input_names, state_names};
use ila_model::IlaModel;
use itoa::Buffer;
use std::alloc::Global;

/// Appends a comma, if so many texts are before it.
fn append_comma(text: &mut String, written: usize) -> Result<(), NoMemory>
    ensures { OnOk result (string_bytes text.new ≡ string_bytes text.old ++ comma_behind written) }
{
    if written > 0 {
        text.push_str(",")?;
    }
    Ok(())
}

/// Appends a name in quotation marks.
fn append_quoted(text: &mut String, name: &str) -> Result<(), NoMemory>
    ensures { OnOk result (string_bytes text.new ≡ string_bytes text.old ++ quoted name.now) }
{
    text.push_str("\"")?;
    text.push_str(name)?;
    text.push_str("\"")?;
    Ok(())
}

/// Appends a key with a text that is the same name.
fn append_name(text: &mut String, name: &str) -> Result<(), NoMemory>
    ensures { OnOk result (string_bytes text.new ≡ string_bytes text.old ++ member_text name.now (quoted name.now)) }
{
    append_quoted(text, name)?;
    text.push_str(":")?;
    append_quoted(text, name)?;
    Ok(())
}

/// Appends names in braces, each of which stands for itself.
fn append_names(text: &mut String, names: &[&str]) -> Result<(), NoMemory>
    ensures { OnOk result (string_bytes text.new ≡ string_bytes text.old
        ++ in_braces (text_members (written_by_their_names (map (λ n. n.now) names.now)))) }
{
    text.push_str("{")?;
    for (index, name) in names.iter().enumerate() {
        append_comma(text, index)?;
        append_name(text, *name)?;
    }
    text.push_str("}")?;
    Ok(())
}

/// Appends the entry of an instruction, by its name and its bound.
fn append_entry(text: &mut String, name: &str, bound: u64) -> Result<(), NoMemory>
    ensures { OnOk result (string_bytes text.new ≡ string_bytes text.old
        ++ in_braces (member_text (codes "bound") (decimal bound) ∷ member_text (codes "commit") (quoted (codes "wb_commit"))
        ∷ member_text (codes "name") (quoted name.now) ∷ [])) }
{
    let mut buffer = Buffer::new();
    text.push_str("{\"bound\":")?;
    text.push_str(buffer.format(bound))?;
    text.push_str(",\"commit\":\"wb_commit\",\"name\":")?;
    append_quoted(text, name)?;
    text.push_str("}")?;
    Ok(())
}

/// Appends the entries of the model's instructions in brackets.
fn append_instructions(text: &mut String, model: &IlaModel) -> Result<(), NoMemory>
    ensures { OnOk result (string_bytes text.new ≡ string_bytes text.old
        ++ in_brackets (map entry_text (map written_entry_for (instructions_in (model_of model.now).top)))) }
{
    text.push_str("[")?;
    for (index, instruction) in model.parts.instructions.iter().enumerate() {
        append_comma(text, index)?;
        let bound = bound_of(model, instruction.child);
        append_entry(text, instruction.name.as_str(), bound)?;
    }
    text.push_str("]")?;
    Ok(())
}

/// The invariants, in brackets: that no child program runs, where there are any.
fn invariants_text(model: &IlaModel) -> &'static str
    ensures { result.now ≡ in_brackets (map quoted (written_map (model_of model.now)).invariants) }
{
    if has_children(model) {
        "[\"wb_busy == 0\"]"
    } else {
        "[]"
    }
}

/// The text of the map of the model's emitted design.
pub fn map_text(alloc: Global, model: &IlaModel) -> Result<String, NoMemory>
    ensures { IfOk result (λ t. string_bytes t ≡ map_text (written_map (model_of model.now))) }
{
    let inputs = input_names(alloc, model)?;
    let states = state_names(alloc, model)?;
    let mut text = String::from_str(alloc, "{\"assume\":[],\"clock\":\"wb_clk\",\"inputs\":")?;
    append_names(&mut text, &inputs)?;
    text.push_str(",\"instructions\":")?;
    append_instructions(&mut text, model)?;
    text.push_str(",\"invariants\":")?;
    text.push_str(invariants_text(model))?;
    text.push_str(
        ",\"reset\":{\"active\":1,\"cycles\":1,\"signal\":\"wb_rst\"},\"start\":\"wb_start\",\"states\":",
    )?;
    append_names(&mut text, &states)?;
    text.push_str(",\"top\":")?;
    append_quoted(&mut text, model.name.as_str())?;
    text.push_str(",\"version\":1}")?;
    Ok(text)
}
