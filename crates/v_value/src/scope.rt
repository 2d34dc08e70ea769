//! What names stand for: objects by name, and values by name.
ghost use Rattle.std.specs.Prelude.{◌≡◌, ℕ, List};
ghost use Rattle.wb_values.specs.Value.{entry_of};
ghost use Rattle.v_value.specs.Objects.{objects_of};
ghost use Rattle.v_value.specs.Tables.{object_at};

use crate::table::Table;

/// What a name of a module stands for: whether it is declared, its sign, whether it has a range, its bits `[left:right]`, for a memory
/// its addresses `[first:last]`, and for a parameter its number. A parameter always has a range, perhaps that of its value.
#[derive(Clone, Copy, PartialEq, Eq, Debug)]
pub struct Object {
    pub is_declared: bool,
    pub signed: bool,
    pub has_range: bool,
    pub left: u32,
    pub right: u32,
    pub addresses: Option<(u32, u32)>,
    pub constant: Option<u128>,
}

/// A declared name with its object.
#[derive(Clone, Copy)]
pub struct Declaration<'s> {
    pub name: &'s str,
    pub object: Object,
}

/// The objects of a module's names. A name that is not declared is read as one unsigned bit, and of two declarations of one name the first
/// counts.
#[derive(Drop)]
pub struct Scope<'s> {
    pub(crate) declarations: Vec<Declaration<'s>>,
    pub(crate) table: Table<'s>,
    pub(crate) ghost holds: { (q : List ℕ) → object_at table q ≡ entry_of (objects_of declarations.items) q },
}

/// A value: a number, or the words of a memory by ascending address.
#[derive(Drop)]
pub enum Value {
    Number(u128),
    Words(Vec<u128>),
}

/// A name with its value.
#[derive(Drop)]
pub struct Entry<'s> {
    pub name: &'s str,
    pub value: Value,
}

/// The values of names. A name that is not among them has the value 0.
#[derive(Drop)]
pub struct Values<'s> {
    pub entries: Vec<Entry<'s>>,
}
