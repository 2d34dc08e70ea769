//! The first of the rules that a module breaks.
ghost use Rattle.std.specs.Prelude.{◌≡◌, false};
ghost use Rattle.v_size.specs.Rule.{kind_option, first_kind};

use v_size::{Broken, Kind};

/// The first broken rule in the order in which kinds are answered: digits, constants, widths, selects, memories. That a name is not
/// declared is left aside, since names are judged apart and before; and between digits and constants the rules on ports are answered,
/// which are none of these.
pub fn first_rule(broken: Broken) -> Option<Kind>
    ensures { kind_option result ≡ first_kind (record broken { undeclared = false }) }
{
    if broken.has_xz {
        return Some(Kind::HasXz);
    }
    if broken.bad_constant {
        return Some(Kind::BadConstant);
    }
    if broken.width_over_128 {
        return Some(Kind::WidthOver128);
    }
    if broken.bad_select {
        return Some(Kind::BadSelect);
    }
    if broken.memory_use {
        return Some(Kind::MemoryUse);
    }
    None
}
