//! The scope of a module, made of its declarations, and what its names stand for.
ghost use Rattle.std.specs.Prelude.{◌≡◌, ◌++◌, ℕ, List, [], option_map, cond, Some, None, IfOk, OnOk};
ghost use Rattle.wb_values.specs.Value.{same_name};
ghost use Rattle.verilog_trees.specs.Syntax as pure;
ghost use Rattle.verilog_meaning.specs.Expression.{undeclared, object_or_undeclared, scope_of};
ghost use Rattle.verilog_meaning.specs.Hierarchy.{declarations};
ghost use Rattle.verilog_designs.specs.Known.{known_module_scope};
ghost use Rattle.v_syntax.specs.Source.{module_of};
ghost use Rattle.v_value.specs.Scope.{object_of, objects_of, scope_at};
ghost use Rattle.v_scopes.specs.Bounds.{first_bounds};
ghost use Rattle.v_scopes.specs.Rows.{rows, row_of, rows_of, both_rows, row_after, row_named, addresses_at, row_object, objects_by};
ghost use Rattle.v_scopes.specs.Tables.{hashed_at, other_at, row_at};
ghost use Rattle.v_scopes.specs.Scopes.{declared_in, scope_in};

use crate::clock::either;
use crate::constant::{Constants, no_constants};
use crate::names::Table;
use crate::range::Bounds;
use crate::row::{Declared, declared_rows};
use crate::table::ModuleScope;
use std::alloc::{AllocError, Global};
use std::collections::BTreeMap;
use v_syntax::module::Module;
use v_value::hash::hash_of;
use v_value::scope::{Declaration, Object, Scope};

/// The range that the first of two declarations gives, or else the second.
fn first_bounds(first: Bounds, later: Bounds) -> Bounds
    ensures { result ≡ first_bounds first later }
{
    match first {
        Bounds::Absent => later,
        Bounds::Unknown => first,
        Bounds::Known(_, _) => first,
    }
}

/// What two declarations of one name say together.
fn both<'s>(first: Declared<'s>, later: Declared<'s>) -> Declared<'s>
    ensures { row_of result ≡ both_rows (row_of first.entry) (row_of later.entry) }
{
    Declared {
        name: first.name,
        direction: first.direction.or(later.direction),
        kind: first.kind.or(later.kind),
        signed: either(first.signed, later.signed),
        range: first_bounds(first.range, later.range),
        addresses: first_bounds(first.addresses, later.addresses),
    }
}

/// What is declared of a name whose hash another one has.
fn earlier<'s>(others: &BTreeMap<&'s str, Declared<'s>>, name: &str) -> Option<Declared<'s>>
    ensures { option_map row_of result ≡ other_at others.now name.now }
{
    others.get(name).copied()
}

/// What is declared of a name that is the one of its hash.
fn hashed<'s>(hashes: &BTreeMap<u64, Declared<'s>>, name: &str) -> Option<Declared<'s>>
    ensures { option_map row_of result ≡ hashed_at hashes.now name.now }
{
    match hashes.get(&hash_of(name)) {
        Some(first) => {
            if first.name == name {
                Some(*first)
            } else {
                None
            }
        }
        None => None,
    }
}

/// All that the table has of a name.
fn found<'s>(table: &Table<'s>, name: &str) -> Option<Declared<'s>>
    ensures { option_map row_of result ≡ row_at table.now name.now }
{
    match earlier(&table.others, name) {
        Some(declared) => Some(declared),
        None => hashed(&table.hashed, name),
    }
}

/// Puts a declaration into the table, where no name that shares its hash has been put aside under its name.
fn add<'s>(table: &mut Table<'s>, declared: Declared<'s>) -> Result<(), AllocError>
    requires { other_at table.old.others declared.name.now ≡ None }
    ensures { OnOk result ((q : List ℕ) → row_at table.new q
        ≡ cond (same_name declared.entry.name.now q) (Some (row_after (row_at table.old q) (row_of declared.entry))) (row_at table.old q)) }
{
    let hash = hash_of(declared.name);
    match table.hashed.insert(hash, declared)? {
        None => Ok(()),
        Some(first) => {
            if first.name == declared.name {
                table.hashed.insert(hash, both(first, declared))?;
                return Ok(());
            }
            table.hashed.insert(hash, first)?;
            table.others.insert(declared.name, declared)?;
            Ok(())
        }
    }
}

/// Puts a declaration into the table.
fn declare<'s>(table: &mut Table<'s>, declared: Declared<'s>) -> Result<(), AllocError>
    ensures { OnOk result ((q : List ℕ) → row_at table.new q
        ≡ cond (same_name declared.entry.name.now q) (Some (row_after (row_at table.old q) (row_of declared.entry))) (row_at table.old q)) }
{
    match earlier(&table.others, declared.name) {
        Some(first) => {
            table.others.insert(declared.name, both(first, declared))?;
            Ok(())
        }
        None => {
            add(table, declared)?;
            Ok(())
        }
    }
}

/// A table without names.
fn no_names<'s>(alloc: Global) -> Table<'s>
    ensures { (q : List ℕ) → row_at result q ≡ None }
{
    Table {
        hashed: BTreeMap::new(alloc),
        others: BTreeMap::new(alloc),
    }
}

/// The table of declarations by their names.
fn table_of<'s>(alloc: Global, declared: &[Declared<'s>]) -> Result<Table<'s>, AllocError>
    ensures { IfOk result (λ t. (q : List ℕ) → row_at t q ≡ row_named (rows_of declared.now) q) }
{
    let mut table = no_names(alloc);
    for each in declared {
        declare(&mut table, *each)?;
    }
    Ok(table)
}

/// What a module declares besides its parameters, where these have the values of a scope. A name whose range has no value is not declared
/// in it.
pub fn declared_scope<'s>(
    alloc: Global,
    within: &Module<'s>,
    constants: Constants<'_, '_>,
) -> Result<ModuleScope<'s>, AllocError>
    ensures { IfOk result (λ s. rows_of s.declared.items ≡ rows (scope_at constants.entry.scope.now) (declarations (module_of within.now))) }
{
    let declared = declared_rows(alloc, within, constants)?;
    let table = table_of(alloc, &declared)?;
    Ok(ModuleScope { declared, table })
}

/// The scope of a module that has no parameters. A name whose range has no value is not declared in it.
pub fn module_scope<'s>(alloc: Global, within: &Module<'s>) -> Result<ModuleScope<'s>, AllocError>
    ensures declared { IfOk result (λ s. rows_of s.declared.items ≡ rows (scope_of []) (declarations (module_of within.now))) }
    ensures scope { IfOk result (λ s. scope_in s ≡ known_module_scope (module_of within.now) []) }
{
    let scope = no_constants(alloc);
    let names = declared_scope(alloc, within, Constants { scope: &scope })?;
    Ok(names)
}

/// The addresses of a memory. Those without a value count as those of one word.
fn addresses_of(addresses: Bounds) -> Option<(u32, u32)>
    ensures { result ≡ addresses_at addresses }
{
    match addresses {
        Bounds::Absent => None,
        Bounds::Unknown => Some((0, 0)),
        Bounds::Known(first, last) => Some((first, last)),
    }
}

/// What a name stands for that is not declared.
fn nothing() -> Object
    ensures { object_of result ≡ undeclared }
{
    Object {
        is_declared: false,
        signed: false,
        has_range: false,
        left: 0,
        right: 0,
        addresses: None,
        constant: None,
    }
}

/// What a name stands for of which this is declared.
fn object_from(declared: Declared<'_>) -> Object
    ensures { object_of result ≡ object_or_undeclared (row_object (row_of declared.entry)) }
{
    let addresses = addresses_of(declared.addresses);
    match declared.range {
        Bounds::Absent => Object {
            is_declared: true,
            signed: declared.signed,
            addresses,
            ..nothing()
        },
        Bounds::Unknown => nothing(),
        Bounds::Known(left, right) => Object {
            is_declared: true,
            signed: declared.signed,
            has_range: true,
            left,
            right,
            addresses,
            constant: None,
        },
    }
}

impl<'s> ModuleScope<'s> {
    /// The declarations of ports, nets and variables in the order of the text, those of the list of ports first.
    pub fn declarations(&self) -> &[Declared<'s>]
        ensures { result.now ≡ self.now.declared.items }
    {
        &self.declared
    }

    /// All that is declared of a name.
    pub fn find(&self, name: &str) -> Option<Declared<'s>>
        ensures { option_map row_of result ≡ declared_in self.now name.now }
    {
        found(&self.table, name)
    }

    /// What a name stands for.
    pub fn object(&self, name: &str) -> Object
        ensures { object_of result ≡ scope_in self.now name.now }
    {
        match self.find(name) {
            Some(declared) => object_from(declared),
            None => nothing(),
        }
    }

    /// The scope as the programs for expressions and statements take it.
    pub fn to_scope(&self, alloc: Global) -> Result<Scope<'s>, AllocError>
        ensures { IfOk result (λ s. scope_at s ≡ scope_in self.now) }
    {
        let list = list_of(alloc, self, &self.declared)?;
        Ok(list)
    }
}

/// Adds the names of declarations with their objects.
fn add_objects<'s>(
    names: &ModuleScope<'s>,
    declared: &[Declared<'s>],
    list: &mut Vec<Declaration<'s>>,
) -> Result<(), AllocError>
    ensures { OnOk result (objects_of list.new.items ≡ objects_of list.old.items ++ objects_by (scope_in names.now) (rows_of declared.now)) }
{
    for each in declared {
        list.push(Declaration {
            name: each.name,
            object: names.object(each.name),
        })?;
    }
    Ok(())
}

/// The names of declarations with their objects.
fn list_of<'s>(
    alloc: Global,
    names: &ModuleScope<'s>,
    declared: &[Declared<'s>],
) -> Result<Scope<'s>, AllocError>
    ensures { IfOk result (λ s. objects_of s.declarations.items ≡ objects_by (scope_in names.now) (rows_of declared.now)) }
{
    let mut list = Vec::new(alloc);
    add_objects(names, declared, &mut list)?;
    let scope = Scope::of(alloc, list)?;
    Ok(scope)
}

/// Adds declarations.
fn add_declarations<'s>(
    declarations: &[Declaration<'s>],
    list: &mut Vec<Declaration<'s>>,
) -> Result<(), AllocError>
    ensures { OnOk result (list.new.items ≡ list.old.items ++ declarations.now) }
{
    for each in declarations {
        list.push(*each)?;
    }
    Ok(())
}

/// The scope of a module whose parameters have such values: these, and else what is declared besides. It is said of each module of which
/// that is all that it declares.
pub fn placed_scope<'s>(
    alloc: Global,
    names: &ModuleScope<'s>,
    constants: &Scope<'s>,
) -> Result<Scope<'s>, AllocError>
    ensures { IfOk result (λ s. (m : pure.Module) → rows_of names.now.declared.items ≡ rows (scope_at constants.now) (declarations m)
        → scope_at s ≡ known_module_scope m (objects_of constants.now.declarations.items)) }
{
    let mut list = Vec::new(alloc);
    add_declarations(constants.declarations(), &mut list)?;
    add_objects(names, &names.declared, &mut list)?;
    let scope = Scope::of(alloc, list)?;
    Ok(scope)
}
