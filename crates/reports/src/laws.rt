//! The laws of reports, the contracts of functions without code.
ghost use Rattle.std.specs.Prelude.{ℕ};
ghost use Rattle.model_meaning.specs.Model.{Instruction, instruction_name};
ghost use Rattle.refinement.specs.Map.{Setting};
ghost use Rattle.refinement.specs.Obligation.{Obligation, Falsifies, IsWholeCommand, bound_named};
ghost use Rattle.sat_base.specs.Formula.{Formula};
ghost use Rattle.reports.specs.Encoding.{BitMap, EncodesObligation, EncodesCover};
ghost use Rattle.reports.specs.Solutions.{HasSolutions};

/// A formula that encodes an obligation has the runs that falsify it as solutions, and one that encodes a cover the whole commands.
pub fn encodings_have_solutions()
    ensures obligations { (s : Setting) (o : Obligation) (f : Formula) (m : BitMap) → EncodesObligation s o f m
        → HasSolutions s o.cycles (λ run. Falsifies s run o) f m }
    ensures covers { (s : Setting) (j : ℕ) (i : Instruction) (f : Formula) (m : BitMap) → EncodesCover s j i f m
        → HasSolutions s (bound_named s.map (instruction_name i)) (IsWholeCommand s j) f m }
{}
