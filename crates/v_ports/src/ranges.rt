//! Ports whose declarations have unequal ranges.
ghost use Rattle.std.specs.Prelude.{◌≡◌, ℕ, List, None, true, false, cond, IfOk, OnOk};
ghost use Rattle.wb_values.specs.Value.{same_name};
ghost use Rattle.verilog_trees.specs.Syntax as pure;
ghost use Rattle.v_scopes.specs.Rows.{rows_of, row_named};
ghost use Rattle.v_ports.specs.Ports.{some_port_is};
ghost use Rattle.v_ports.specs.Ranges.{is_other, first_after, differs_after, first_in};

use crate::ports::is_port;
use std::alloc::{AllocError, Global};
use std::collections::BTreeMap;
use v_scopes::{Bounds, Declared, ModuleScope};

/// Whether a range with values is another one than the first that was met.
fn is_other(first: Option<(u32, u32)>, range: Bounds) -> bool
    ensures { result ≡ is_other first range }
{
    match first {
        Some(bounds) => match range {
            Bounds::Known(left, right) => bounds.0 != left || bounds.1 != right,
            Bounds::Absent => false,
            Bounds::Unknown => false,
        },
        None => false,
    }
}

/// The first range with values that was met of a name.
fn first_of(first: &BTreeMap<&str, (u32, u32)>, name: &str) -> Option<(u32, u32)>
    ensures { result ≡ first_in first.now name.now }
{
    first.get(name).copied()
}

/// Keeps a range with values, where it is the first of its name.
fn keep<'s>(
    first: &mut BTreeMap<&'s str, (u32, u32)>,
    name: &'s str,
    before: Option<(u32, u32)>,
    range: Bounds,
) -> Result<(), AllocError>
    requires { before ≡ first_in first.old name.now }
    ensures { OnOk result ((n : List ℕ) → first_in first.new n ≡ cond (same_name name.now n) (first_after before range) (first_in first.old n)) }
{
    match before {
        Some(_) => Ok(()),
        None => match range {
            Bounds::Known(left, right) => {
                first.insert(name, (left, right))?;
                Ok(())
            }
            Bounds::Absent => Ok(()),
            Bounds::Unknown => Ok(()),
        },
    }
}

/// Whether the declarations of some port have ranges with unequal bounds.
pub(crate) fn has_unequal_ranges<'s>(
    alloc: Global,
    names: &ModuleScope<'s>,
    declared: &[Declared<'s>],
) -> Result<bool, AllocError>
    requires { declared.now ≡ names.now.declared.items }
    ensures { IfOk result (λ b. b ≡ some_port_is (differs_after None (rows_of declared.now)) (rows_of declared.now)) }
{
    let mut first = BTreeMap::new(alloc);
    for row in declared {
        if is_port(names, row.name) {
            let before = first_of(&first, row.name);
            if is_other(before, row.range) {
                return Ok(true);
            }
            keep(&mut first, row.name, before, row.range)?;
        }
    }
    Ok(false)
}
