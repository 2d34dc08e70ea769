//! Which names may be used at a point of a module's text.
ghost use Rattle.std.specs.Prelude.{◌≡◌, ◌&&◌, ◌∷◌, [], ℕ, List, true, IfOk};
ghost use Rattle.verilog_designs.specs.Names.{declares};
ghost use Rattle.v_hier.specs.Reading.{has_net, knows, IsRead};

use std::alloc::AllocError;
use std::collections::BTreeSet;

/// The names that may be used besides parameters.
#[derive(Drop)]
pub(crate) enum Nets<'n, 't> {
    /// Those of the set.
    Declared(BTreeSet<&'t str>),
    /// Those that are not of the set.
    Other(&'n BTreeSet<&'t str>),
}

/// The names of a module: its parameters, its nets and variables, and the parameters that are declared already.
#[derive(Drop)]
pub(crate) struct Names<'n, 't> {
    pub(crate) parameters: BTreeSet<&'t str>,
    pub(crate) nets: Nets<'n, 't>,
    pub(crate) before: BTreeSet<&'t str>,
}

/// Whether the name may be used, where it is no parameter.
fn is_net(nets: &Nets<'_, '_>, name: &str) -> bool
    ensures { result ≡ has_net nets.now name.now }
{
    match nets {
        Nets::Declared(set) => set.contains(name),
        Nets::Other(set) => !set.contains(name),
    }
}

/// Whether the name may be used.
pub(crate) fn is_known(names: &Names<'_, '_>, name: &str) -> bool
    ensures { result ≡ knows names.now name.now }
{
    if names.parameters.contains(name) {
        return names.before.contains(name);
    }
    is_net(&names.nets, name)
}

/// Whether both hold.
pub(crate) fn both(x: bool, y: bool) -> bool
    ensures { result ≡ (x && y) }
{
    x && y
}

/// A parameter is declared.
pub(crate) fn declare<'t>(names: &mut Names<'_, 't>, name: &'t str) -> Result<(), AllocError>
    ensures { IfOk result (λ _. IsRead names.old (declares name.now ∷ []) true names.new) }
{
    names.before.insert(name)?;
    Ok(())
}
