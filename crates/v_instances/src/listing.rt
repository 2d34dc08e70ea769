//! Names in an order, with the set of them.
ghost use Rattle.std.specs.Prelude.{◌≡◌, ◌++◌, ℕ, List, IfOk, OnOk};
ghost use Rattle.verilog_designs.specs.Names.{is_among};
ghost use Rattle.v_hier.specs.Tables.{has_name};
ghost use Rattle.v_instances.specs.Texts.{texts};

use std::alloc::{AllocError, Global};
use std::collections::BTreeSet;

/// Names in an order, with the set of them.
#[derive(Drop)]
pub struct Listing<'s> {
    pub order: Vec<&'s str>,
    pub set: BTreeSet<&'s str>,
    pub ghost alike: { (q : List ℕ) → has_name set q ≡ is_among (texts order.items) q },
}

/// Adds names.
pub(crate) fn add_names<'s>(names: &[&'s str], order: &mut Vec<&'s str>) -> Result<(), AllocError>
    ensures { OnOk result (texts order.new.items ≡ texts order.old.items ++ texts names.now) }
{
    for name in names {
        order.push(*name)?;
    }
    Ok(())
}

/// The names as a set.
fn set_of<'s>(alloc: Global, names: &[&'s str]) -> Result<BTreeSet<&'s str>, AllocError>
    ensures { IfOk result (λ s. (q : List ℕ) → has_name s q ≡ is_among (texts names.now) q) }
{
    let mut set = BTreeSet::new(alloc);
    for name in names {
        set.insert(*name)?;
    }
    Ok(set)
}

/// The names in this order.
pub(crate) fn listing_of<'s>(alloc: Global, order: Vec<&'s str>) -> Result<Listing<'s>, AllocError>
    ensures { IfOk result (λ l. texts l.order.items ≡ texts order.entry.items) }
{
    let set = set_of(alloc, &order)?;
    Ok(Listing { order, set })
}
