//! From a term of truth sort to the formula that encodes it.

ghost use Rattle.std.specs.Prelude.{◌≡◌, ◌<◌, ◌≤◌, ◌↔◌, ℕ, length, IfOk, Some, true, Contains, IsSome, None, slice_index_or};
ghost use Rattle.wb_values.specs.Value.{truth};
ghost use Rattle.model_meaning.specs.Term.{sort_of};
ghost use Rattle.wb_terms.specs.Graph.{tree};
ghost use Rattle.sat_gates.specs.Names.{names_in, is_blastable};
ghost use Rattle.sat_gates.specs.Encodes.{Encodes};
ghost use Rattle.sat_gates.specs.Layout.{variables_of, IsNumbered};

use crate::blasting::put_term;
use crate::layout::{BitMap, lay_out, used_names};
use crate::reach::cone;
use gate_base::{Builder, assumed};
use sat_base::{Cnf, NoMemory};
use std::alloc::Global;
use wb_terms::{TermId, Terms};

/// A formula, and the variables of the names' bits in it.
#[derive(Drop)]
pub struct Blasted {
    /// Satisfied where the term is false.
    pub cnf: Cnf,
    /// The variables of the bits of the names.
    pub map: BitMap,
}

/// The formula in conjunctive normal form that is satisfied where a term is false.
/// The bits of the names of the term have the first variables, in the order of declaration; then there is one variable for each gate.
/// Only the terms on which it stands are looked at, each once. Gates whose values are known where the term is false are left out.
pub fn blast(alloc: Global, terms: &Terms, id: TermId) -> Result<Blasted, NoMemory>
    requires id { id.0 < length terms.now.nodes }
    requires sort { sort_of (tree terms.now id.0) ≡ Some truth }
    requires blastable { is_blastable (tree terms.now id.0) ≡ true }
    ensures encodes { IfOk result (λ b. Encodes b.cnf (variables_of terms.now.names b.map) (tree terms.now id.0)) }
    ensures numbered { IfOk result (λ b. IsNumbered terms.now.names (names_in (tree terms.now id.0)) b.map b.cnf.vars) }
{
    let ids = cone(alloc, terms, id)?;
    let used = used_names(alloc, terms, id, &ids)?;
    let layout = lay_out(alloc, terms, used)?;
    let mut circuit = Builder::new(alloc, layout.inputs);
    let bit = put_term(alloc, &mut circuit, terms, id, &ids, &layout.map)?;
    let wanted = bit.negated();
    let asked = assumed(alloc, circuit, wanted)?;
    let cnf = asked.circuit.into_cnf(alloc, asked.wanted)?;
    Ok(Blasted {
        cnf,
        map: layout.map,
    })
}
