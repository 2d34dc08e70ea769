//! What follows where a formula encodes a term, as the contract of a function without code.
ghost use Rattle.model_meaning.specs.Term.{Term};
ghost use Rattle.sat_base.specs.Formula.{Formula};
ghost use Rattle.sat_gates.specs.Encodes.{Variables, Encodes};
ghost use Rattle.sat_gates.specs.Solutions.{HasSolutions};

/// A formula that encodes a term has solutions exactly for the values under which the term is false, one for each.
pub fn encodings_have_solutions()
    ensures { (f : Formula) (m : Variables) (t : Term) → Encodes f m t → HasSolutions f m t }
{}
