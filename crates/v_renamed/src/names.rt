//! A table of new names.
ghost use Rattle.std.specs.Prelude.{◌≡◌};
ghost use Rattle.v_renamed.specs.NewNames.{new_name};

use std::collections::BTreeMap;

/// The new name for each name that has one.
#[derive(Drop)]
pub struct Names<'a> {
    pub table: BTreeMap<&'a str, &'a str>,
}

/// The new name of a name, or the name itself where the table has none for it.
pub fn name_for<'a>(names: &Names<'a>, name: &'a str) -> &'a str
    ensures { result.now ≡ new_name names.now name.now }
{
    match names.table.get(name) {
        Some(new) => *new,
        None => name,
    }
}
