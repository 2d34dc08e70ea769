//! A law on obligations: no two of a model and a map have one name.

ghost use Rattle.std.specs.Prelude.{◌≤◌, ◌^◌, length, map, IsFalse};
ghost use Rattle.wb_values.specs.Value.{Name};
ghost use Rattle.model_meaning.specs.Among.{has_twice};
ghost use Rattle.model_meaning.specs.Model.{Model};
ghost use Rattle.model_meaning.specs.Invariant.{IsModel};
ghost use Rattle.refinement.specs.Map.{Map};
ghost use Rattle.refinement.specs.Obligation.{bound_named, obligations as all_obligations};

/// Where a model keeps the rules of models, no two obligations of it have one name.
pub fn names_of_obligations_are_distinct()
    ensures { (m : Model) (p : Map) → IsModel m → length p.invariants ≤ 2 ^ 64 → ((n : Name) → bound_named p n ≤ 2 ^ 64)
        → IsFalse (has_twice (map (λ o. o.called) (all_obligations m p))) }
{}
