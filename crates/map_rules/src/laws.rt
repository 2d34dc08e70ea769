//! Laws about maps, each the contract of a function without code.
ghost use Rattle.std.specs.Prelude.{◌≡◌, ℕ, List};
ghost use Rattle.wb_values.specs.Value.{Name};
ghost use Rattle.model_meaning.specs.Model.{Model};
ghost use Rattle.verilog_trees.specs.Syntax.{Source};
ghost use Rattle.refinement.specs.Map.{Map, map_scope};
ghost use Rattle.map_files.specs.Written.{WrittenMap};
ghost use Rattle.map_files.specs.Meaning.{MapRule};
ghost use Rattle.map_rules.specs.Accepted.{StandsForMap, MapOf, IsFileRefusedBy, case_of};
ghost use Rattle.map_rules.specs.Case.{case_design};
ghost use Rattle.map_rules.specs.Expressions.{design_scope};

/// The expressions of a map are judged in the scope in which refinement reads them.
pub fn the_scope_is_that_of_the_map()
    ensures { (m : Model) (s : Source) (w : WrittenMap) (p : Map) → StandsForMap m w p
        → (n : Name) → map_scope (record { model = m; source = s; map = p }) n ≡ design_scope (case_design (case_of w m s)) n }
{}

/// A file that stands for a map is refused by no rule.
pub fn accepted_maps_are_not_refused()
    ensures { (bytes : List ℕ) (m : Model) (s : Source) (p : Map) (rule : MapRule) → MapOf bytes m s p → ¬ IsFileRefusedBy bytes m s rule }
{}
