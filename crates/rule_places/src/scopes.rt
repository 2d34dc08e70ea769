//! What the names of a module stand for where it is laid out.

use crate::bits::all_bits;
use crate::piece::{Info, unknown};
use std::alloc::{AllocError, Global};
use std::collections::BTreeSet;
use v_scopes::ModuleScope;
use v_size::Names;
use v_syntax::module::{Direction, NetKind};
use v_value::scope::{Declaration, Object, Scope};

/// What the names of a module stand for, what it declares, and its clock nets.
#[derive(Clone, Copy)]
pub(crate) struct Scopes<'n, 's> {
    pub(crate) names: Names<'n, 's>,
    pub(crate) declared: &'n ModuleScope<'s>,
    pub(crate) clocks: &'n BTreeSet<&'s str>,
}

/// These together.
pub(crate) fn scopes_of<'n, 's>(
    names: Names<'n, 's>,
    declared: &'n ModuleScope<'s>,
    clocks: &'n BTreeSet<&'s str>,
) -> Scopes<'n, 's> {
    Scopes {
        names,
        declared,
        clocks,
    }
}

/// What is known of a name.
pub(crate) fn info_of(scopes: Scopes<'_, '_>, name: &str) -> Info {
    let object = scopes.names.scope.object(name);
    let mut info = unknown();
    info.signed = object.signed;
    info.is_constant = object.constant.is_some();
    info.is_memory = object.addresses.is_some();
    info.is_clock = scopes.clocks.contains(name);
    if object.is_declared && !info.is_constant {
        info.bits = all_bits(object);
    }
    if let Some(row) = scopes.declared.find(name) {
        info.is_declared = true;
        info.is_port = row.direction.is_some();
        info.is_input = matches!(row.direction, Some(Direction::Input));
        info.is_variable = matches!(row.kind, Some(NetKind::Reg));
    }
    info
}

/// How far apart the bounds of an object's range are: one less than its width.
pub(crate) fn last_place(object: Object) -> u32 {
    object.left.max(object.right) - object.left.min(object.right)
}

/// The object with at most 128 bits: a wider one has two, in its direction. Where `nets` says so, one without a value is a net of one bit.
fn counted(object: Object, nets: bool) -> Object {
    let mut found = object;
    found.is_declared = object.is_declared | nets;
    if last_place(object) > 127 {
        let descends = object.right <= object.left;
        found.left = if descends { 1 } else { 0 };
        found.right = if descends { 0 } else { 1 };
    }
    found
}

/// The scope of a module that declares these names and has these constants, with at most 128 bits each. Where `nets` says so, a name whose
/// range has no value is a net too.
pub(crate) fn scope_of<'s>(
    alloc: Global,
    names: &ModuleScope<'s>,
    constants: &Scope<'s>,
    nets: bool,
) -> Result<Scope<'s>, AllocError> {
    let mut list = Vec::new(alloc);
    for each in constants.declarations() {
        list.push(*each)?;
    }
    for row in names.declarations() {
        list.push(Declaration {
            name: row.name,
            object: counted(names.object(row.name), nets),
        })?;
    }
    Scope::of(alloc, list)
}
