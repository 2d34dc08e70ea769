//! Bits, which are what words are made of, and the gates that give new ones.

ghost use Rattle.std.specs.Prelude.{◌≡◌, List, Bool, not, ℕ};
ghost use Rattle.gate_base.specs.Circuit.{bit_value, exactly_one, gate_value, IsBitBelow};
ghost use Rattle.gate_base.specs.Clauses.{IsGateBelow};

use sat_base::Lit;

/// A truth value that depends on an assignment: a constant, or a literal.
#[derive(Clone, Copy, Debug, PartialEq, Eq)]
pub enum Bit {
    /// The same under every assignment.
    Constant(bool),
    /// The value of a variable, or its negation.
    Literal(Lit),
}

/// What the variable of a gate stands for.
#[derive(Clone, Copy, Debug, PartialEq, Eq)]
pub enum Gate {
    /// Both are true.
    And(Lit, Lit),
    /// Exactly one is true.
    Xor(Lit, Lit),
    /// The second where the first is true, else the third.
    Ite(Lit, Lit, Lit),
}

impl Bit {
    /// The other truth value. It takes no gate.
    pub fn negated(self) -> Bit
        ensures value { (w : List Bool) → bit_value w result ≡ not (bit_value w self) }
        ensures known { (n : ℕ) → IsBitBelow n self → IsBitBelow n result }
    {
        match self {
            Bit::Constant(value) => Bit::Constant(!value),
            Bit::Literal(literal) => Bit::Literal(literal.negated()),
        }
    }

    /// The other truth value where it is to be flipped.
    pub(crate) fn negated_if(self, flip: bool) -> Bit
        ensures value { (w : List Bool) → bit_value w result ≡ exactly_one flip (bit_value w self) }
        ensures known { (n : ℕ) → IsBitBelow n self → IsBitBelow n result }
    {
        if flip { self.negated() } else { self }
    }
}

impl Gate {
    /// The same gate with its operands by their variables, where their order does not count.
    pub(crate) fn in_order(self) -> Gate
        ensures value { (w : List Bool) → gate_value w result ≡ gate_value w self }
        ensures below { (n : ℕ) → IsGateBelow n self → IsGateBelow n result }
    {
        match self {
            Gate::And(x, y) if y.var < x.var => Gate::And(y, x),
            Gate::Xor(x, y) if y.var < x.var => Gate::Xor(y, x),
            _ => self,
        }
    }
}
