//! The laws, each the contract of a function without code.
ghost use Rattle.verilog_constants.specs.Alike.{ExpressionsAgree, NumbersAgree, ModulesAgree};

/// In two scopes that differ in nets, variables and memories alone the same digits are refused, and the same constants, and a constant
/// has the same number: in an expression, and in a module.
pub fn digits_and_constants_rest_on_constants()
    ensures expressions { ExpressionsAgree }
    ensures numbers { NumbersAgree }
    ensures modules { ModulesAgree }
{}
