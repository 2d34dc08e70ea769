//! Literals as numbers of 32 bits: twice the variable, and one more for its negation.
ghost use Rattle.std.specs.Prelude.{◌≡◌, ◌^◌, ◌<◌};
ghost use Rattle.sat_base.specs.Codes.{code_of, literal_of};

use crate::literals::Lit;

/// The number of a literal.
#[inline]
pub fn encode(lit: Lit) -> u32
    requires { lit.var < 2 ^ 31 }
    ensures { result ≡ code_of lit }
{
    if lit.negative {
        2 * lit.var as u32 + 1
    } else {
        2 * lit.var as u32
    }
}

/// The literal of a number.
#[inline]
pub fn decode(code: u32) -> Lit
    ensures { result ≡ literal_of code }
{
    Lit {
        var: (code / 2) as u64,
        negative: code % 2 == 1,
    }
}
