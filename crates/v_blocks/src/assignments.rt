//! Which kinds of assignments stand in a statement (1364-2005, 9.2).

ghost use Rattle.std.specs.Prelude.{◌≡◌, ◌||◌};
ghost use Rattle.v_syntax.specs.Tree.{statement_of};
ghost use Rattle.v_statement.specs.Statements.{statement_list};
ghost use Rattle.v_statement.specs.Effects.{item_list, item_statement};
ghost use Rattle.verilog_designs.specs.Paths.{has_blocking, one_has_blocking, an_arm_has_blocking, has_nonblocking, one_has_nonblocking, an_arm_has_nonblocking};
ghost use Rattle.v_blocks.specs.Arms.{one_arm_has};

use v_syntax::tree::{Arm, CaseItem, Statement};

/// Whether blocking assignments and nonblocking ones stand in a part of a block.
#[derive(Clone, Copy)]
pub struct Assignments {
    pub blocking: bool,
    pub nonblocking: bool,
}

const NONE: Assignments = Assignments {
    blocking: false,
    nonblocking: false,
};

impl Assignments {
    fn or(self, other: Assignments) -> Assignments
        ensures blocking { result.blocking ≡ (self.blocking || other.blocking) }
        ensures nonblocking { result.nonblocking ≡ (self.nonblocking || other.nonblocking) }
    {
        Assignments {
            blocking: self.blocking || other.blocking,
            nonblocking: self.nonblocking || other.nonblocking,
        }
    }
}

/// Whether blocking assignments and nonblocking ones stand in a statement, in whatever branch.
#[cycle(found)]
pub fn assignments_in(statement: &Statement<'_>) -> Assignments
    ensures blocking { result.blocking ≡ has_blocking (statement_of statement.now) }
    ensures nonblocking { result.nonblocking ≡ has_nonblocking (statement_of statement.now) }
{
    match statement {
        Statement::Empty => NONE,
        Statement::Blocking(_, _) => Assignments {
            blocking: true,
            nonblocking: false,
        },
        Statement::Nonblocking(_, _) => Assignments {
            blocking: false,
            nonblocking: true,
        },
        Statement::If(arms, last) => {
            let found = in_arms(arms);
            match last {
                Some(other) => found.or(assignments_in(other)),
                None => found,
            }
        }
        Statement::Case(_, _, items) => in_items(items),
        Statement::Block(_, statements) => in_all(statements),
    }
}

#[cycle(found)]
fn in_all(statements: &[Statement<'_>]) -> Assignments
    ensures blocking { result.blocking ≡ one_has_blocking (statement_list statements.now) }
    ensures nonblocking { result.nonblocking ≡ one_has_nonblocking (statement_list statements.now) }
{
    let mut found = NONE;
    for statement in statements {
        found = found.or(assignments_in(statement));
    }
    found
}

#[cycle(found)]
fn in_arms(arms: &[Arm<'_>]) -> Assignments
    ensures blocking { result.blocking ≡ one_arm_has has_blocking arms.now }
    ensures nonblocking { result.nonblocking ≡ one_arm_has has_nonblocking arms.now }
{
    let mut found = NONE;
    for arm in arms {
        found = found.or(assignments_in(&arm.statement));
    }
    found
}

#[cycle(found)]
fn in_items(items: &[CaseItem<'_>]) -> Assignments
    ensures blocking { result.blocking ≡ an_arm_has_blocking (item_list items.now) }
    ensures nonblocking { result.nonblocking ≡ an_arm_has_nonblocking (item_list items.now) }
{
    let mut found = NONE;
    for item in items {
        found = found.or(in_item(item));
    }
    found
}

#[cycle(found)]
fn in_item(item: &CaseItem<'_>) -> Assignments
    ensures blocking { result.blocking ≡ has_blocking (item_statement item.now) }
    ensures nonblocking { result.nonblocking ≡ has_nonblocking (item_statement item.now) }
{
    match item {
        CaseItem::Values(_, statement) => assignments_in(statement),
        CaseItem::Default(statement) => assignments_in(statement),
    }
}
