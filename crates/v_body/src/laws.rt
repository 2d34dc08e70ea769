//! What reading targets, assignments and statements means, as laws without code.

ghost use Rattle.std.specs.Prelude.{◌≡◌, ℕ, List, Some};
ghost use Rattle.verilog_text.specs.Token.{Mark, Token};
ghost use Rattle.verilog_trees.specs.Syntax.{Expression, Target, Statement};
ghost use Rattle.verilog_text.specs.Grammar.{IsTarget, IsAssignment, IsStatement};
ghost use Rattle.v_expr.specs.Ending.{EndsMark, Ends};
ghost use Rattle.v_body.specs.Targets.{target_at, assignment_at};
ghost use Rattle.v_body.specs.Statements.{IsNearest, statement_at};

/// A target, however deep: what is read is spelled so, and what is spelled so, in front of what does not go on with it, is read.
pub fn a_target_is_read()
    ensures spelled { (t : Target) (text rest : List Token) → target_at text ≡ Some (t, rest) → IsTarget t text rest }
    ensures read { (k : ℕ) (t : Target) (text rest : List Token) → IsTarget t text rest → Ends k rest → target_at text ≡ Some (t, rest) }
{}

/// An assignment likewise, by any sign that does not go on with its target.
pub fn an_assignment_is_read()
    ensures spelled { (sign : Mark) (x : Target × Expression) (text rest : List Token) → assignment_at sign text ≡ Some (x, rest) → IsAssignment sign x text rest }
    ensures read { (k : ℕ) (sign : Mark) (x : Target × Expression) (text rest : List Token) → EndsMark k sign → IsAssignment sign x text rest → Ends 0 rest → assignment_at sign text ≡ Some (x, rest) }
{}

/// A statement, however deep: what is read is spelled so, and an `else` belongs to the nearest `if`; and what is spelled so is read.
pub fn a_statement_is_read()
    ensures spelled { (s : Statement) (text rest : List Token) → statement_at text ≡ Some (s, rest) → IsStatement s text rest }
    ensures nearest { (s : Statement) (text rest : List Token) → statement_at text ≡ Some (s, rest) → IsNearest s rest }
    ensures read { (s : Statement) (text rest : List Token) → IsStatement s text rest → IsNearest s rest → statement_at text ≡ Some (s, rest) }
{}

/// Tokens spell at most one statement, where no `else` stands behind that would belong to it, and it ends at one place.
pub fn one_statement()
    ensures { (s t : Statement) (text rest other : List Token) → IsStatement s text rest → IsNearest s rest → IsStatement t text other → IsNearest t other → (s ≡ t) × (rest ≡ other) }
{}
