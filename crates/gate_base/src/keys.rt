//! Gates in an order, so that a table can find them again.

ghost use Rattle.std.specs.Prelude.{◌≡◌};
ghost use Rattle.gate_base.specs.Keys.{literal_of, gate_of};

use crate::bits::Gate;
use sat_base::Lit;

/// A literal, in an order.
#[derive(Clone, Copy, PartialEq, Eq, PartialOrd, Ord)]
pub(crate) struct Operand {
    var: u64,
    negative: bool,
}

/// A gate, in an order.
#[derive(Clone, Copy, PartialEq, Eq, PartialOrd, Ord)]
pub(crate) enum GateKey {
    /// Both are true.
    And(Operand, Operand),
    /// Exactly one is true.
    Xor(Operand, Operand),
    /// The second where the first is true, else the third.
    Ite(Operand, Operand, Operand),
}

impl Operand {
    fn of(literal: Lit) -> Operand
        ensures { literal_of result ≡ literal }
    {
        Operand {
            var: literal.var,
            negative: literal.negative,
        }
    }
}

impl GateKey {
    /// The key of a gate. Gates with the same key are the same.
    pub(crate) fn of(gate: Gate) -> GateKey
        ensures { gate_of result ≡ gate }
    {
        match gate {
            Gate::And(x, y) => GateKey::And(Operand::of(x), Operand::of(y)),
            Gate::Xor(x, y) => GateKey::Xor(Operand::of(x), Operand::of(y)),
            Gate::Ite(condition, x, y) => {
                GateKey::Ite(Operand::of(condition), Operand::of(x), Operand::of(y))
            }
        }
    }
}
