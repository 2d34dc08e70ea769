//! Laws on the conditions of this crate, each the contract of a function without code.

ghost use Rattle.v_write.specs.Soundness.{UnbrokenIsSound};

/// A statement of an accepted design meets the condition of `lower_statement`.
pub fn unbroken_statements_are_sound()
    ensures { UnbrokenIsSound }
{}
