//! The laws, each the contract of a function without code.
ghost use Rattle.verilog_order.specs.Grounded.{GroundedBitsHaveNoLoop, BitsThatRestOnThemselvesLoop, AssignedBitsDependByIt, BlockBitsDependByIt, InputBitsDependByIt, OutputBitsDependByIt, DependenceStaysInside, AssignedBitsAreGrounded, BlockBitsAreGrounded, InputBitsAreGrounded, OutputBitsAreGrounded, UndrivenBitsAreGrounded};
ghost use Rattle.verilog_order.specs.Turns.{UndrivenBitsAreGiven, AssignmentsSettle, InputsSettle, OutputsSettle, LinksKeep, BlocksSettle, BlocksKeep, AssignmentsKeepValues, InputsKeepValues, OutputsKeepValues, BlocksKeepValues, AllBitsSettled};

/// Grounded bits are in no loop, and bits that rest on themselves are in one.
pub fn loops_are_bits_that_rest_on_themselves()
    ensures none { GroundedBitsHaveNoLoop }
    ensures some { BitsThatRestOnThemselvesLoop }
{}

/// A bit has one driver at most: what it depends on is what that gives it, a bit of a declared name.
pub fn a_bit_depends_by_its_one_driver()
    ensures assigned { AssignedBitsDependByIt }
    ensures by_block { BlockBitsDependByIt }
    ensures input { InputBitsDependByIt }
    ensures output { OutputBitsDependByIt }
    ensures inside { DependenceStaysInside }
{}

/// A bit is grounded where all bits are on which it depends by its driver.
pub fn a_bit_is_grounded_by_its_driver()
    ensures assigned { AssignedBitsAreGrounded }
    ensures by_block { BlockBitsAreGrounded }
    ensures input { InputBitsAreGrounded }
    ensures output { OutputBitsAreGrounded }
    ensures undriven { UndrivenBitsAreGrounded }
{}

/// A bit that nothing drives from within the design is that of a register, of an input of the top, or not set.
pub fn an_undriven_bit_is_given_from_outside()
    ensures { UndrivenBitsAreGiven }
{}

/// An assignment or a connection that is evaluated gives each bit its settled value, where those had theirs that give it its value.
pub fn a_target_settles_after_what_gives_it()
    ensures assignments { AssignmentsSettle }
    ensures inputs { InputsSettle }
    ensures outputs { OutputsSettle }
    ensures others { LinksKeep }
    ensures assignments_keep { AssignmentsKeepValues }
    ensures inputs_keep { InputsKeepValues }
    ensures outputs_keep { OutputsKeepValues }
{}

/// A combinational block that is run gives each bit its settled value, where those had theirs on which it depends.
pub fn a_block_settles_after_what_it_depends_on()
    ensures blocks { BlocksSettle }
    ensures others { BlocksKeep }
    ensures values { BlocksKeepValues }
{}

/// A valuation that has the settled value at each declared bit is the settled one.
pub fn all_bits_are_all_values()
    ensures { AllBitsSettled }
{}
