//! What a report decides, as laws: each is the contract of a function without code.

ghost use Rattle.std.specs.Prelude.{ℕ, List};
ghost use Rattle.refinement.specs.Map.{Setting};
ghost use Rattle.refinement.specs.Obligation.{obligations};
ghost use Rattle.reports.specs.Encoding.{Spent};
ghost use Rattle.reports.specs.Report.{IsReport, all_proved, some_failed};
ghost use Rattle.refinement.specs.Soundness.{AllHold};

/// Where a report ends with all proved, every obligation holds; where it ends with a failed line, some obligation does not.
pub fn a_report_decides()
    ensures all_proved { (s : Setting) (budget : ℕ) (text : List ℕ) (spent : List Spent) → IsReport s budget text all_proved spent
        → AllHold s (obligations s.model s.map) }
    ensures some_failed { (s : Setting) (budget : ℕ) (text : List ℕ) (spent : List Spent) → IsReport s budget text some_failed spent
        → ¬ AllHold s (obligations s.model s.map) }
{}
