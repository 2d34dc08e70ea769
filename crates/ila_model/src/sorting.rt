//! Parts that are well sorted.

ghost use Rattle.std.specs.Prelude.{◌≡◌, IsTrue, IfOk, IfSome, is_some};
ghost use Rattle.ila_model.specs.Sorted.{is_well_sorted};

use crate::parts::Parts;
use crate::scopes::scopes_of;
use crate::sorted::{are_children, are_declarations, is_machine};
use std::alloc::Global;
use wb_terms::NoMemory;

/// The parts of a model, well sorted.
#[derive(Drop)]
pub struct SortedParts {
    pub parts: Parts,
    pub ghost well_sorted: { IsTrue (is_well_sorted parts) },
}

impl SortedParts {
    /// These parts, exactly where they are well sorted.
    pub fn new(alloc: Global, parts: Parts) -> Result<Option<SortedParts>, NoMemory>
        ensures well_sorted { IfOk result (λ s. is_some s ≡ is_well_sorted parts) }
        ensures parts { IfOk result (λ o. IfSome o (λ s. s.parts ≡ parts)) }
    {
        if !are_declarations(&parts) {
            return Ok(None);
        }
        let scopes = scopes_of(alloc, &parts)?;
        if !is_machine(&parts, &scopes, None, parts.valid, &parts.instructions) {
            return Ok(None);
        }
        if !are_children(&parts, &scopes) {
            return Ok(None);
        }
        Ok(Some(SortedParts { parts }))
    }
}
