//! Literals: a variable, or its negation.
ghost use Rattle.std.specs.Prelude.{◌≡◌};
ghost use Rattle.sat_base.specs.Literal.{negation};

/// A literal: variable `var`, counted from 0, or its negation. DIMACS CNF writes it `var + 1`, or
/// `-(var + 1)`.
#[derive(Clone, Copy, Debug, PartialEq, Eq)]
pub struct Lit {
    pub var: u64,
    pub negative: bool,
}

impl Lit {
    /// The literal of the same variable with the other sign.
    pub fn negated(self) -> Lit
        ensures { result ≡ negation self }
    {
        Lit {
            var: self.var,
            negative: !self.negative,
        }
    }
}
