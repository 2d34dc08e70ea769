//! The model and the design with its map that the files of a check are, or the text that refuses the files.

ghost use Rattle.std.specs.Prelude.{IfOk, map};
ghost use Rattle.wb_top.specs.Cases.{IsCase};

use crate::places::note_of_case;
use crate::stop::NoMemory;
use crate::texts::{
    refusal_by, refusal_of_design, refusal_of_map, refusal_of_text, refusal_of_tree,
};
use ila_model::IlaModel;
use mapped_designs::MappedDesign;
use read_cases::{FilesCase, case_of_files};
use std::alloc::Global;

/// What the files of a check are.
#[derive(Drop)]
pub(crate) enum Case {
    /// A model, and a design with its map.
    Setting(IlaModel, MappedDesign),
    /// A rule refuses them: the text that says so.
    Refused(Vec<u8>),
}

/// What the files of a check are, of which none is too long, with the names of its Verilog files.
pub(crate) fn case_of(
    alloc: Global,
    names: &[String],
    model: &[u8],
    map_file: &[u8],
    designs: &[Vec<u8>],
) -> Result<Case, NoMemory>
    ensures { IfOk result (IsCase model.now map_file.now (map (λ d. d.items) designs.now)) }
{
    match case_of_files(alloc, model, map_file, designs)? {
        FilesCase::Case(model, mapped) => Ok(Case::Setting(model, mapped)),
        FilesCase::Model(broken) => {
            let text = refusal_by(alloc, &broken)?;
            Ok(Case::Refused(text))
        }
        FilesCase::MapFile(broken) => {
            let text = refusal_of_map(alloc, &broken)?;
            Ok(Case::Refused(text))
        }
        FilesCase::Text(broken) => {
            let text = refusal_of_text(alloc, names, &broken)?;
            Ok(Case::Refused(text))
        }
        FilesCase::Tokens(note) => {
            let text = refusal_of_tree(alloc, names, &note)?;
            Ok(Case::Refused(text))
        }
        FilesCase::Design(kind) => {
            let note = note_of_case(alloc, map_file, designs, kind)?;
            let text = refusal_of_design(alloc, names, kind, &note)?;
            Ok(Case::Refused(text))
        }
    }
}
