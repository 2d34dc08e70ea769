//! The clock of a design: an input port of its top, of one bit.
ghost use Rattle.std.specs.Prelude.{◌≡◌, [], None, IfOk};
ghost use Rattle.verilog_designs.specs.Known.{known_constants};
ghost use Rattle.verilog_designs.specs.Accepted.{has_no_clock};
ghost use Rattle.v_syntax.specs.Source.{module_of};

use crate::ports::is_input_port;
use crate::wide::is_wide_name;
use std::alloc::{AllocError, Global};
use v_constants::constants_of;
use v_scopes::Constants;
use v_syntax::module::Module;

/// Whether the module, as the top, lacks an input port of this name and of one bit. A range without a value says nothing, and so does one
/// that uses a parameter before its declaration.
pub(crate) fn has_no_clock(
    alloc: Global,
    within: &Module<'_>,
    clock: &str,
) -> Result<bool, AllocError>
    ensures { IfOk result (λ b. b ≡ has_no_clock (record { path = []; of_module = module_of within.now; constants = known_constants (module_of within.now) (λ n. None) }) clock.now) }
{
    if !is_input_port(within, clock) {
        return Ok(true);
    }
    let known = constants_of(alloc, within, &[])?;
    let constants = Constants { scope: &known };
    let wide = is_wide_name(within, constants, clock, alloc)?;
    Ok(wide)
}
