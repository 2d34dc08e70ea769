//! What reading expressions means, as laws without code.

ghost use Rattle.std.specs.Prelude.{◌≡◌, ◌≤◌, ℕ, suc, List, Some, None};
ghost use Rattle.verilog_trees.specs.Syntax.{Expression, Selects};
ghost use Rattle.verilog_text.specs.Token.{Token};
ghost use Rattle.verilog_text.specs.Spelling.{IsExpression, AreSelects};
ghost use Rattle.v_expr.specs.Ending.{Ends, nesting, nesting_of_selects};
ghost use Rattle.v_expr.specs.Reading.{selects_at, expression_at};
ghost use Rattle.v_expr.specs.Whole.{whole_at, whole_selects_at};

/// What is read is spelled so.
pub fn what_is_read_is_spelled()
    ensures expression { (d : ℕ) (text rest : List Token) (e : Expression) → expression_at d text ≡ Some (e, rest) → IsExpression 0 e text rest }
    ensures selects { (d : ℕ) (text rest : List Token) (s : Selects) → selects_at (expression_at d) text ≡ Some (s, rest) → AreSelects s text rest }
{}

/// What is spelled so, at most `d` levels deep and in front of what does not go on with it, is read.
pub fn an_expression_is_read()
    ensures expression { (d : ℕ) (e : Expression) (text rest : List Token) (s : IsExpression 0 e text rest) → nesting s ≤ d → Ends 0 rest → expression_at (suc d) text ≡ Some (e, rest) }
    ensures selects { (d k : ℕ) (e : Selects) (text rest : List Token) (s : AreSelects e text rest) → nesting_of_selects s ≤ d → Ends k rest → selects_at (expression_at d) text ≡ Some (e, rest) }
{}

/// What is refused at `d + 1` levels is spelled by no expression that is at most `d` levels deep.
pub fn what_is_refused_is_none()
    ensures { (d : ℕ) (text : List Token) → expression_at (suc d) text ≡ None → (e : Expression) (rest : List Token) (s : IsExpression 0 e text rest) → nesting s ≤ d → Ends 0 rest → ⊥ }
{}

/// In front of what does not go on with them, tokens spell at most one expression, and it ends at one place.
pub fn one_expression()
    ensures { (e f : Expression) (text rest other : List Token) → IsExpression 0 e text rest → Ends 0 rest → IsExpression 0 f text other → Ends 0 other → (e ≡ f) × (rest ≡ other) }
{}

/// A whole expression, however deep: what is read is spelled so, and what is spelled so, in front of what does not go on with it, is read.
pub fn a_whole_expression_is_read()
    ensures spelled { (text rest : List Token) (e : Expression) → whole_at text ≡ Some (e, rest) → IsExpression 0 e text rest }
    ensures read { (e : Expression) (text rest : List Token) → IsExpression 0 e text rest → Ends 0 rest → whole_at text ≡ Some (e, rest) }
{}

/// The selects behind a name likewise.
pub fn whole_selects_are_read()
    ensures spelled { (text rest : List Token) (s : Selects) → whole_selects_at text ≡ Some (s, rest) → AreSelects s text rest }
    ensures read { (k : ℕ) (s : Selects) (text rest : List Token) → AreSelects s text rest → Ends k rest → whole_selects_at text ≡ Some (s, rest) }
{}
