//! Texts of the shape of a model, by their parts: states, and instructions with their updates and child programs.

use crate::sheet::Sheet;
use ila_file::{
    BinaryOperator, WrittenInstruction, WrittenMachine, WrittenModel, WrittenSort, WrittenState,
    WrittenTerm, WrittenValue,
};
use std::alloc::Global;

/// Adds a line of what a text of the shape of a model says: its machine, and those of its instructions' child programs.
pub fn add_outline(model: &WrittenModel<'_>, alloc: Global, out: &mut Sheet) {
    out.add(model.name);
    add_machine(&model.machine, alloc, out);
    for instruction in &model.machine.instructions {
        if let Some(child) = &instruction.child {
            out.add_number(alloc, " child of ", u128::from(child.steps));
            out.add(" steps");
            add_machine(&child.machine, alloc, out);
        }
    }
}

fn add_machine(machine: &WrittenMachine<'_>, alloc: Global, out: &mut Sheet) {
    out.add(" {");
    for state in &machine.states {
        add_state(state, alloc, out);
    }
    if let Some(fetch) = &machine.fetch {
        out.add(" fetch ");
        add_term(fetch, alloc, out);
    }
    out.add(" valid ");
    add_term(&machine.valid, alloc, out);
    for instruction in &machine.instructions {
        add_instruction(instruction, alloc, out);
    }
    out.add(" }");
}

fn add_state(state: &WrittenState<'_>, alloc: Global, out: &mut Sheet) {
    out.add(" ");
    out.add(state.name);
    match state.sort {
        WrittenSort::Truth => out.add(":bool"),
        WrittenSort::Word(width) => out.add_number(alloc, ":", u128::from(width)),
        WrittenSort::Memory(address, width) => {
            out.add_number(alloc, ":[", u128::from(address));
            out.add_number(alloc, ",", u128::from(width));
            out.add("]");
        }
    }
    match state.initial {
        Some(WrittenValue::Number(number)) => out.add_number(alloc, "=", number),
        Some(WrittenValue::Truth(true)) => out.add("=true"),
        Some(WrittenValue::Truth(false)) => out.add("=false"),
        None => {}
    }
}

fn add_instruction(instruction: &WrittenInstruction<'_>, alloc: Global, out: &mut Sheet) {
    out.add(" ");
    out.add(instruction.name);
    out.add("(");
    for update in &instruction.updates {
        out.add(" ");
        out.add(update.state);
        out.add("=");
        add_term(&update.term, alloc, out);
    }
    out.add(" )");
}

/// A truth value, a name and a constant as they stand; of other terms the kind.
fn add_term(term: &WrittenTerm<'_>, alloc: Global, out: &mut Sheet) {
    match term {
        WrittenTerm::Name(name) => out.add(name),
        WrittenTerm::Truth(true) => out.add("true"),
        WrittenTerm::Truth(false) => out.add("false"),
        WrittenTerm::Const(width, number) => {
            out.add_number(alloc, "", u128::from(*width));
            out.add_number(alloc, "'", *number);
        }
        WrittenTerm::Binary(BinaryOperator::Load, _, _) => out.add("load"),
        WrittenTerm::Binary(_, _, _) => out.add("two"),
        _ => out.add("other"),
    }
}
