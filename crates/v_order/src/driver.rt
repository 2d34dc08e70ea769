//! What drives nets and variables without a clock.
use v_syntax::tree::{Expression, Statement, Target};

/// A driver of a module that waits for no clock.
#[derive(Clone, Copy)]
pub enum Driver<'t, 's> {
    /// A continuous assignment: its target and its value.
    Link(&'t Target<'s>, &'t Expression<'s>),
    /// A net and the value that its declaration gives it.
    Net(&'s str, &'t Expression<'s>),
    /// A combinational block.
    Block(&'t Statement<'s>),
}
