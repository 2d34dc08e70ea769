//! Operands that stand by themselves.

ghost use Rattle.std.specs.Prelude.{◌≡◌, ◌<◌, ◌^◌};

use wb_terms::TermId;

/// A term that stands for an operand by itself: how many bits it has, and its sign.
#[derive(Clone, Copy, PartialEq, Eq, Debug)]
pub struct Operand {
    pub id: TermId,
    pub width: u32,
    pub signed: bool,
}

/// The number as one of 128 bits.
pub fn natural(number: u32) -> u128
    ensures same { result ≡ number }
    ensures fits { result < 2 ^ 32 }
{
    u128::from(number)
}
