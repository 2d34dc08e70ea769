//! Names that are declared twice, found with one look at a table for each declaration.
ghost use Rattle.std.specs.Prelude.{◌≡◌, ℕ, List, cond, IfOk};
ghost use Rattle.wb_values.specs.Value.{same_name};
ghost use Rattle.verilog_designs.specs.Names.{has_duplicate, has_duplicate_module};
ghost use Rattle.v_syntax.specs.Source.{module_of, source_of};
ghost use Rattle.v_hier.specs.declared.duplicate.Standing.TheVariants.{Free};
ghost use Rattle.v_hier.specs.Entries.{entries_of, next, is_repeated, clashes};
ghost use Rattle.v_hier.specs.Standings.{standing_at};

use crate::entry::{Entry, Tag, all_entries, module_entries, port_entries};
use std::alloc::{AllocError, Global};
use std::collections::BTreeMap;
use v_syntax::module::{Module, Tree};

/// How a name stands after some declarations.
#[derive(Clone, Copy, PartialEq, Eq, Debug)]
pub(crate) enum Standing {
    /// It is not declared.
    Free,
    /// It is declared once, as a port without `wire` or `reg`.
    OnePort,
    /// It is declared once, as a net or variable without a direction.
    OneNet,
    /// It is declared once, otherwise.
    OneOther,
    /// It is declared as a port, and as its net or variable.
    PortAndNet,
    /// It is declared too often.
    Repeated,
}

/// How a name stands after one more declaration.
fn next(tag: Tag, standing: Standing) -> Standing
    ensures { result ≡ next tag standing }
{
    match (tag, standing) {
        (Tag::BarePort, Standing::Free) => Standing::OnePort,
        (Tag::Net, Standing::Free) => Standing::OneNet,
        (Tag::Other, Standing::Free) => Standing::OneOther,
        (Tag::Net, Standing::OnePort) => Standing::PortAndNet,
        (Tag::BarePort, Standing::OneNet) => Standing::PortAndNet,
        _ => Standing::Repeated,
    }
}

/// Whether a name that stands so is declared too often.
fn is_repeated(standing: Standing) -> bool
    ensures { result ≡ is_repeated standing }
{
    matches!(standing, Standing::Repeated)
}

/// How a name stands in the table.
fn standing_of(name: &str, table: &BTreeMap<&str, Standing>) -> Standing
    ensures { result ≡ standing_at table.now name.now }
{
    match table.get(name) {
        Some(standing) => *standing,
        None => Standing::Free,
    }
}

/// Declares a name once more, and says whether it is then declared too often.
fn declare_again<'s>(
    name: &'s str,
    tag: Tag,
    table: &mut BTreeMap<&'s str, Standing>,
) -> Result<bool, AllocError>
    ensures repeated { IfOk result (λ b. b ≡ is_repeated (next tag (standing_at table.old name.now))) }
    ensures table { IfOk result (λ _. (q : List ℕ) → standing_at table.new q
        ≡ cond (same_name name.now q) (next tag (standing_at table.old q)) (standing_at table.old q)) }
{
    let standing = next(tag, standing_of(name, table));
    table.insert(name, standing)?;
    Ok(is_repeated(standing))
}

/// Whether some name is declared too often.
fn has_clash<'s>(alloc: Global, entries: &[Entry<'s>]) -> Result<bool, AllocError>
    ensures { IfOk result (λ b. b ≡ clashes (λ q. Free) (entries_of entries.now)) }
{
    let mut table = BTreeMap::new(alloc);
    for entry in entries {
        if declare_again(entry.name, entry.tag, &mut table)? {
            return Ok(true);
        }
    }
    Ok(false)
}

/// Whether two declarations of the module share a name, but for a port that has one `wire` or `reg` declaration besides, or its list
/// of ports has a name twice.
pub fn has_duplicate(alloc: Global, within: &Module<'_>) -> Result<bool, AllocError>
    ensures { IfOk result (λ b. b ≡ has_duplicate (module_of within.now)) }
{
    let entries = all_entries(alloc, within)?;
    if has_clash(alloc, &entries)? {
        return Ok(true);
    }
    let ports = port_entries(alloc, &within.ports)?;
    let repeated = has_clash(alloc, &ports)?;
    Ok(repeated)
}

/// Whether two modules of the source share a name.
pub fn has_duplicate_module(alloc: Global, tree: &Tree<'_>) -> Result<bool, AllocError>
    ensures { IfOk result (λ b. b ≡ has_duplicate_module (source_of tree.now)) }
{
    let entries = module_entries(alloc, &tree.modules)?;
    let repeated = has_clash(alloc, &entries)?;
    Ok(repeated)
}
