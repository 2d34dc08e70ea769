//! The names of a design in order. What is left to be told waits on a stack, the next one on top, so no list of names is copied.
ghost use Rattle.std.specs.Prelude.{◌≡◌, ◌++◌, ◌∷◌, [], ℕ, List, length, map, IfOk, OnOk, Some};
ghost use Rattle.wb_values.specs.Value.{Name};
ghost use Rattle.verilog_meaning.specs.Hierarchy.{PathStep, Placed};
ghost use Rattle.verilog_meaning.specs.Settled.{Design, at_path};
ghost use Rattle.verilog_registers.specs.Order.{members_in};
ghost use Rattle.v_hier.specs.Tables.{under_name};
ghost use Rattle.v_syntax.specs.Source.{module_of};
ghost use Rattle.v_places.specs.Views.{spots_of};
ghost use Rattle.flat_designs.specs.Flat.{Naming};
ghost use Rattle.v_flat.specs.Entries.{names_of};
ghost use Rattle.v_flat.specs.Views.{names_in};
ghost use Rattle.v_flat.specs.Whole.{IsPlacing};
ghost use Rattle.v_ordered.specs.Order.{AreNamesInOrder};
ghost use Rattle.v_ordered.specs.Membership.{member_of};
ghost use Rattle.v_ordered.specs.Lines.{line, AreBelow};
ghost use Rattle.v_ordered.specs.Tables.{text_under, number_at, seen, line_at, AreLines};
ghost use Rattle.v_ordered.specs.Left.{names_left};

use crate::below::tables_below;
use crate::member::Member;
use crate::members::members_of;
use crate::naming::tables_of;
use crate::task::Task;
use std::alloc::{AllocError, Global};
use std::collections::BTreeMap;
use v_flat::DottedNames;
use v_places::Place;
use v_syntax::module::Module;

/// Puts a member on the stack: what a net is called, or the place of an instance.
fn put_member<'n>(
    member: Member<'_>,
    names: &BTreeMap<&'n str, &'n str>,
    below: &BTreeMap<&str, usize>,
    stack: &mut Vec<Task<'n>>,
) -> Result<(), AllocError>
    ensures { OnOk result ((lists : ℕ → List Name) → names_left lists stack.new.items
        ≡ line (text_under names.now) (under_name below.now) lists (member_of member.entry ∷ []) ++ names_left lists stack.old.items) }
{
    match member {
        Member::Net(name) => match names.get(name) {
            Some(text) => {
                stack.push(Task::Name(*text))?;
                Ok(())
            }
            None => Ok(()),
        },
        Member::Instance(name) => match below.get(name) {
            Some(number) => {
                stack.push(Task::Place(*number))?;
                Ok(())
            }
            None => Ok(()),
        },
    }
}

/// Puts the members of a module on the stack, the first of them on top.
fn put_members<'n>(
    alloc: Global,
    within: &Module<'_>,
    names: &BTreeMap<&'n str, &'n str>,
    below: &BTreeMap<&str, usize>,
    stack: &mut Vec<Task<'n>>,
) -> Result<(), AllocError>
    ensures { OnOk result ((lists : ℕ → List Name) → names_left lists stack.new.items
        ≡ line (text_under names.now) (under_name below.now) lists (members_in (module_of within.now)) ++ names_left lists stack.old.items) }
{
    let mut members = members_of(alloc, within)?;
    while let Some(member) = members.pop() {
        put_member(member, names, below, stack)?;
    }
    Ok(())
}

/// Puts what the place with a number has on the stack.
fn put_place<'t, 'n>(
    alloc: Global,
    places: &'t [Place<'t, '_>],
    number: usize,
    tables: &[BTreeMap<&'n str, &'n str>],
    below: &[BTreeMap<&str, usize>],
    stack: &mut Vec<Task<'n>>,
) -> Result<(), AllocError>
    requires names { length tables.now ≡ length places.now }
    requires below { length below.now ≡ length places.now }
    ensures { OnOk result ((lists : ℕ → List Name) → names_left lists stack.new.items
        ≡ line_at (spots_of places.now) tables.now below.now lists number ++ names_left lists stack.old.items) }
{
    if number >= places.len() {
        return Ok(());
    }
    put_members(
        alloc,
        places[number].within,
        &tables[number],
        &below[number],
        stack,
    )?;
    Ok(())
}

/// The names of the first place and of all that stands in it.
fn all_names<'t, 'n>(
    alloc: Global,
    places: &'t [Place<'t, '_>],
    tables: &[BTreeMap<&'n str, &'n str>],
    below: &[BTreeMap<&str, usize>],
) -> Result<Vec<&'n str>, AllocError>
    requires names { length tables.now ≡ length places.now }
    requires below { length below.now ≡ length places.now }
    requires numbers { (k : ℕ) → AreBelow (spots_of places.now) k (number_at below.now k) }
    ensures { IfOk result (λ v. (lists : ℕ → List Name) × AreLines (spots_of places.now) tables.now below.now lists × (seen v.items ≡ lists 0)) }
{
    let mut names = Vec::new(alloc);
    let mut stack = Vec::new(alloc);
    stack.push(Task::Place(0))?;
    while let Some(task) = stack.pop() {
        match task {
            Task::Name(name) => names.push(name)?,
            Task::Place(number) => put_place(alloc, places, number, tables, below, &mut stack)?,
        }
    }
    Ok(names)
}

/// What all nets and variables of the design that stands at these places are called, in the order in which registers are told: in a
/// module that of its text, and those of an instance where it stands.
pub fn names_in_order<'t, 'n>(
    alloc: Global,
    places: &'t [Place<'t, '_>],
    names: &'n DottedNames<'n>,
) -> Result<Vec<&'n str>, AllocError>
    ensures { IfOk result (λ v. (d : Design) (called : Naming) (top : Placed) → IsPlacing d (spots_of places.now)
        → map names_in names.now.places.items ≡ names_of called (spots_of places.now)
        → ((path : List PathStep) (n : Name) → called path [] ++ n ≡ called path n) → at_path d [] ≡ Some top
        → AreNamesInOrder d called top (members_in top.of_module) (seen v.items)) }
{
    // They are the names of other places.
    if names.places.len() != places.len() {
        return Ok(Vec::new(alloc));
    }
    let tables = tables_of(alloc, &names.places)?;
    let below = tables_below(alloc, places)?;
    let list = all_names(alloc, places, &tables, &below)?;
    Ok(list)
}
