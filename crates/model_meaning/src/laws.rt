//! Laws about models, each the contract of a function without code.
ghost use Rattle.std.specs.Prelude.{◌≡◌};
ghost use Rattle.std.specs.Prelude.{codes};
ghost use Rattle.wb_values.specs.Value.{number, Valuation};
ghost use Rattle.model_meaning.specs.Model.{Model};
ghost use Rattle.model_meaning.specs.Instruction.{Steps, HasTrouble, stuck, too_long};
ghost use Rattle.model_meaning.specs.Worked.{multiplier, multiply, always, product, factors, low};

/// A child runs to its end: 3 times 5 is 15, by four steps where at most four may be taken.
pub fn a_child_runs_to_its_end()
    ensures { (r : Valuation) × Steps (multiplier always 4) (product 0) (factors 3 5) r × (r (codes "p") ≡ number 15) }
{}

/// A child that is still valid after its last step is too long, and one that does not decode at its third step is stuck there.
pub fn a_child_has_its_trouble()
    ensures long { HasTrouble (multiplier always 3) (multiply always 3) (product 0) (factors 3 5) (too_long 1) }
    ensures stopped { HasTrouble (multiplier low 4) (multiply low 4) (product 0) (factors 3 5) (stuck 1 2) }
{}

/// A model has at most one next state: the child programs of the instruction that decodes end at one point, if they do.
pub fn a_model_has_one_next_state()
    ensures { (m : Model) (q w r s : Valuation) → Steps m q w r → Steps m q w s → r ≡ s }
{}
