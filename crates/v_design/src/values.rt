//! Registers and inputs of a design: a value for each register, and a number for each input.

use wb_terms::Value;

/// A value for each register of a design, in the design's order.
#[derive(Drop)]
pub struct Registers {
    pub values: Vec<Value>,
}

/// A number for each input of a design's top but the clock, in the design's order.
#[derive(Drop)]
pub struct Inputs {
    pub numbers: Vec<u128>,
}
