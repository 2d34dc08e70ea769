//! Worked values of the definitions, as contracts of functions that do nothing.
ghost use Rattle.std.specs.Prelude.{◌≡◌, ℕ, ◌≤◌, List, [], ◌∷◌, true, length, Contains};
ghost use Rattle.sat_base.specs.declared.literals.Lit.{Lit};
ghost use Rattle.sat_base.specs.Literal.{positive, opposed};
ghost use Rattle.sat_base.specs.Formula.{value};
ghost use Rattle.sat_base.specs.Propagation.{IsUnitUnder, Follows, IsNew};
ghost use Rattle.sat_base.specs.Log.{Refutes};

/// Which hints show a clause, and which do not.
pub fn hints()
    // No hints, and a hint that is not the number of an earlier clause.
    ensures no_hints { (earlier : List (List Lit)) (lits : List Lit) → ¬ Follows earlier lits [] }
    ensures not_earlier { (earlier : List (List Lit)) (lits : List Lit) (hint : ℕ) → length earlier ≤ hint → ¬ Follows earlier lits (hint ∷ []) }

    // (1) and (2) do not show (-1): the first hint is satisfied already.
    ensures satisfied { ¬ Follows ((positive 1 ∷ []) ∷ (positive 2 ∷ []) ∷ []) (opposed 1 ∷ []) (0 ∷ 1 ∷ []) }

    // (1 2) and (-2) show (1), each used once and not twice.
    ensures once { Follows ((positive 1 ∷ positive 2 ∷ []) ∷ (opposed 2 ∷ []) ∷ []) (positive 1 ∷ []) (0 ∷ 1 ∷ []) }
    ensures twice { ¬ Follows ((positive 1 ∷ positive 2 ∷ []) ∷ (opposed 2 ∷ []) ∷ []) (positive 1 ∷ []) (0 ∷ 0 ∷ 1 ∷ []) }

    // The conflict must come at the last hint, and must come there.
    ensures early { ¬ Follows ((positive 1 ∷ []) ∷ []) (positive 1 ∷ []) (0 ∷ 0 ∷ []) }
    ensures none { ¬ Follows ((positive 1 ∷ positive 2 ∷ []) ∷ []) (positive 1 ∷ []) (0 ∷ []) }

    // A clause is a set: (1 2 2) has one literal besides 1.
    ensures repeated { IsUnitUnder (positive 1 ∷ []) (positive 1 ∷ positive 2 ∷ positive 2 ∷ []) (positive 2) }

    // (1 -1) follows by (1), and from the empty clause everything follows.
    ensures tautology { Follows ((positive 1 ∷ []) ∷ []) (positive 1 ∷ opposed 1 ∷ []) (0 ∷ []) }
    ensures from_empty { (lits : List Lit) → Follows ([] ∷ []) lits (0 ∷ []) }
{}

/// What is new to unit propagation.
pub fn new_lemmas()
    // (1 2) and (1 -2) imply (1), which propagation from nothing does not find.
    ensures learnt_unit { IsNew ((positive 1 ∷ positive 2 ∷ []) ∷ (positive 1 ∷ opposed 2 ∷ []) ∷ []) (positive 1 ∷ []) }

    // A lemma that holds an earlier clause is not new, nor is the empty one.
    ensures holds_earlier { (earlier : List (List Lit)) (clause lits : List Lit) → Contains earlier clause
        → ((m : Lit) → Contains clause m → Contains lits m) → ¬ IsNew earlier lits }
    ensures empty { (earlier : List (List Lit)) → ¬ IsNew earlier [] }
{}

/// A refutation, and a value.
pub fn small_formulas()
    // The log of the one lemma () by hints 0 and 1 refutes (1), (-1).
    ensures opposite_units { Refutes (record { vars = 2; clauses = (positive 1 ∷ []) ∷ (opposed 1 ∷ []) ∷ [] }) (record { lits = []; hints = 0 ∷ 1 ∷ [] } ∷ []) }

    // A variable past the assignment's end is false, so its negation is true.
    ensures past_end { value [] (opposed 5) ≡ true }
{}
