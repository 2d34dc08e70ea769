//! Names that are used and that nothing declares, or parameters before their declaration.
ghost use Rattle.std.specs.Prelude.{◌≡◌, ◌||◌, ◌∷◌, ℕ, List, false, not, map, IfOk};
ghost use Rattle.verilog_trees.specs.Syntax as pure;
ghost use Rattle.verilog_meaning.specs.Hierarchy.{all_parameters, declarations};
ghost use Rattle.verilog_meaning.specs.Settled.{is_declared_among};
ghost use Rattle.verilog_designs.specs.Names.{is_among, parameter_names, module_names, has_undeclared};
ghost use Rattle.v_syntax.specs.Source.{item_of, module_of, source_of};
ghost use Rattle.v_hier.specs.Tables.{has_name};
ghost use Rattle.v_hier.specs.Reading.{has_net};
ghost use Rattle.v_hier.specs.Entries.{entries_of, entry_names};
ghost use Rattle.v_hier.specs.Instances.{AreModulesOf, instantiates_other};

use crate::entry::{Entry, add_nets, add_parameters, module_entries};
use crate::known::{Names, Nets};
use crate::reading::uses_unknown;
use std::alloc::{AllocError, Global};
use std::collections::BTreeSet;
use v_syntax::module::{Item, Module, Tree};

/// The names as a set.
fn set_of<'s>(alloc: Global, entries: &[Entry<'s>]) -> Result<BTreeSet<&'s str>, AllocError>
    ensures { IfOk result (λ s. (q : List ℕ) → has_name s q ≡ is_among (entry_names (entries_of entries.now)) q) }
{
    let mut set = BTreeSet::new(alloc);
    for entry in entries {
        set.insert(entry.name)?;
    }
    Ok(set)
}

/// The names of a module's nets and variables, its ports among them.
fn net_set<'s>(alloc: Global, within: &Module<'s>) -> Result<BTreeSet<&'s str>, AllocError>
    ensures { IfOk result (λ s. (q : List ℕ) → has_name s q ≡ is_declared_among (declarations (module_of within.now)) q) }
{
    let mut entries = Vec::new(alloc);
    add_nets(within, &mut entries)?;
    let set = set_of(alloc, &entries)?;
    Ok(set)
}

/// The names of a module's parameters.
fn parameter_set<'s>(alloc: Global, within: &Module<'s>) -> Result<BTreeSet<&'s str>, AllocError>
    ensures { IfOk result (λ s. (q : List ℕ) → has_name s q ≡ is_among (parameter_names (all_parameters (module_of within.now))) q) }
{
    let mut entries = Vec::new(alloc);
    add_parameters(within, &mut entries)?;
    let set = set_of(alloc, &entries)?;
    Ok(set)
}

/// The names of modules.
fn module_set<'s>(alloc: Global, modules: &[Module<'s>]) -> Result<BTreeSet<&'s str>, AllocError>
    ensures { IfOk result (λ s. (q : List ℕ) → has_name s q ≡ is_among (module_names (map module_of modules.now)) q) }
{
    let entries = module_entries(alloc, modules)?;
    let set = set_of(alloc, &entries)?;
    Ok(set)
}

/// The names of a module, where no parameter is declared yet.
fn names_of<'n, 's>(alloc: Global, within: &Module<'s>) -> Result<Names<'n, 's>, AllocError>
    ensures parameters { IfOk result (λ ns. (q : List ℕ) → has_name ns.parameters q ≡ is_among (parameter_names (all_parameters (module_of within.now))) q) }
    ensures nets { IfOk result (λ ns. (q : List ℕ) → has_net ns.nets q ≡ is_declared_among (declarations (module_of within.now)) q) }
    ensures before { IfOk result (λ ns. (q : List ℕ) → has_name ns.before q ≡ false) }
{
    let parameters = parameter_set(alloc, within)?;
    let nets = net_set(alloc, within)?;
    let before = BTreeSet::new(alloc);
    Ok(Names {
        parameters,
        nets: Nets::Declared(nets),
        before,
    })
}

/// Whether an item is of instances of no module of the set.
fn is_unknown_instance(item: &Item<'_>, modules: &BTreeSet<&str>) -> bool
    ensures { (rest : List pure.Item) → instantiates_other (has_name modules.now) (item_of item.now ∷ rest) ≡ (result || instantiates_other (has_name modules.now) rest) }
{
    match item {
        Item::Instances(name, _, _) => !modules.contains(*name),
        Item::Port(_) => false,
        Item::Parameter(_) => false,
        Item::Wires(_, _, _) => false,
        Item::Variables(_, _, _) => false,
        Item::Assign(_) => false,
        Item::Always(_, _) => false,
    }
}

/// Whether some item is of instances of no module of the set.
fn are_unknown_instances(items: &[Item<'_>], modules: &BTreeSet<&str>) -> bool
    ensures { result ≡ instantiates_other (has_name modules.now) (map item_of items.now) }
{
    for item in items {
        if is_unknown_instance(item, modules) {
            return true;
        }
    }
    false
}

/// The names of the modules of a source.
pub fn declared_modules<'s>(alloc: Global, tree: &Tree<'s>) -> Result<BTreeSet<&'s str>, AllocError>
    ensures { IfOk result (λ s. AreModulesOf s (source_of tree.now)) }
{
    let modules = module_set(alloc, &tree.modules)?;
    Ok(modules)
}

/// The same as `has_undeclared` where the modules of the source are these.
pub fn has_undeclared_beside(
    alloc: Global,
    within: &Module<'_>,
    modules: &BTreeSet<&str>,
) -> Result<bool, AllocError>
    ensures { IfOk result (λ b. (source : pure.Source) → AreModulesOf modules.now source → b ≡ has_undeclared source (module_of within.now)) }
{
    let mut names = names_of(alloc, within)?;
    if uses_unknown(within, &mut names)? {
        return Ok(true);
    }
    Ok(are_unknown_instances(&within.items, modules))
}

/// Whether the module uses a name that is not declared, a parameter before its declaration, or a module that the tree lacks.
pub fn has_undeclared<'s>(
    alloc: Global,
    tree: &Tree<'s>,
    within: &Module<'s>,
) -> Result<bool, AllocError>
    ensures { IfOk result (λ b. b ≡ has_undeclared (source_of tree.now) (module_of within.now)) }
{
    let modules = declared_modules(alloc, tree)?;
    let undeclared = has_undeclared_beside(alloc, within, &modules)?;
    Ok(undeclared)
}
