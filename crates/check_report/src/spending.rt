//! What shows that budgets were spent.

ghost use Rattle.std.specs.Prelude.{◌≡◌, ◌++◌, OnOk};
ghost use Rattle.check_report.specs.Spending.{spent_one, spent_among};

use obligation_check::{Finding, NoMemory, Spent};

/// Adds what shows that a budget was spent, where the finding has it.
fn add_one(list: &mut Vec<Spent>, finding: Finding) -> Result<(), NoMemory>
    ensures { OnOk result (list.new.items ≡ list.old.items ++ spent_one finding) }
{
    match finding {
        Finding::Spent(spent) => {
            list.push(spent)?;
            Ok(())
        }
        Finding::Holds => Ok(()),
        Finding::Breaks(_values) => Ok(()),
    }
}

/// Moves what shows that budgets were spent out of the findings, in order.
pub(crate) fn add_spent(list: &mut Vec<Spent>, findings: Vec<Finding>) -> Result<(), NoMemory>
    ensures { OnOk result (list.new.items ≡ list.old.items ++ spent_among findings.items) }
{
    for finding in findings {
        add_one(list, finding)?;
    }
    Ok(())
}
