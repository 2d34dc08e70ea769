//! What the definitions imply, as contracts of functions that do nothing.
ghost use Rattle.std.specs.Prelude.{◌≡◌, ℕ, List, Bool, All};
ghost use Rattle.sat_base.specs.declared.literals.Lit.{Lit};
ghost use Rattle.sat_base.specs.declared.logs.Lemma.{Lemma};
ghost use Rattle.sat_base.specs.Formula.{Formula, Satisfies, SatisfiesClause};
ghost use Rattle.sat_base.specs.Propagation.{Follows};
ghost use Rattle.sat_base.specs.Log.{Refutes, IsSpent};

/// A clause that follows by its hints is true under every assignment that satisfies all earlier clauses.
pub fn follows_is_implied()
    ensures { (earlier : List (List Lit)) (lits : List Lit) (hints : List ℕ) → Follows earlier lits hints
        → (a : List Bool) → All (SatisfiesClause a) earlier → SatisfiesClause a lits }
{}

/// No assignment satisfies a formula that a log refutes.
pub fn refuted_is_unsatisfiable()
    ensures { (f : Formula) (log : List Lemma) → Refutes f log → (a : List Bool) → ¬ Satisfies a f }
{}

/// Each lemma of a spent log is true under every assignment that satisfies the formula.
pub fn spent_is_implied()
    ensures { (budget : ℕ) (f : Formula) (log : List Lemma) → IsSpent budget f log
        → (a : List Bool) → Satisfies a f → All (λ s. SatisfiesClause a s.lits) log }
{}
