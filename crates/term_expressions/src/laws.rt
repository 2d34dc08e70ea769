//! The laws, each the contract of a function without code.
ghost use Rattle.term_expressions.specs.Laws.{ArithmeticShiftIsAshr, AssignedNetHasItsNumber, BitsAreExtract, BitwiseAndIsAnd, BitwiseOrIsOr, BitwiseXorIsXor, ComplementIsNot, ConditionalIsIte, DifferenceIsSub, EqualIsEq, FilledIsZext, LessIsUlt, LessOrEqualIsUle, MinusIsNeg, NameIsItsValue, PartsAreConcat, ProductIsMul, ShiftLeftIsShl, ShiftRightIsLshr, SignedIsSext, SignedLessIsSlt, SignedLessOrEqualIsSle, SizedIsConst, StandingIsAssigned, SumIsAdd, WordIsLoad};

/// Bit by bit, and arithmetic.
pub fn operators_are_computed()
    ensures complement { ComplementIsNot }
    ensures minus { MinusIsNeg }
    ensures sum { SumIsAdd }
    ensures difference { DifferenceIsSub }
    ensures product { ProductIsMul }
    ensures both { BitwiseAndIsAnd }
    ensures either { BitwiseOrIsOr }
    ensures different { BitwiseXorIsXor }
{}

/// Shifts.
pub fn shifts_are_computed()
    ensures left { ShiftLeftIsShl }
    ensures right { ShiftRightIsLshr }
    ensures arithmetic { ArithmeticShiftIsAshr }
{}

/// Comparisons, and choices by a condition.
pub fn tests_are_computed()
    ensures equal { EqualIsEq }
    ensures less { LessIsUlt }
    ensures less_or_equal { LessOrEqualIsUle }
    ensures signed_less { SignedLessIsSlt }
    ensures signed_less_or_equal { SignedLessOrEqualIsSle }
    ensures choice { ConditionalIsIte }
{}

/// Constants, parts side by side, and words filled with zeros.
pub fn parts_are_joined()
    ensures constant { SizedIsConst }
    ensures parts { PartsAreConcat }
    ensures filled { FilledIsZext }
{}

/// Names, bits of nets, words of memories.
pub fn names_are_read()
    ensures name { NameIsItsValue }
    ensures bits { BitsAreExtract }
    ensures word { WordIsLoad }
{}

/// What an assignment gives a net of the expression's width, and a wider one of a signed expression; and that the net has it where the
/// assignment holds.
pub fn nets_are_assigned()
    ensures same { StandingIsAssigned }
    ensures widened { SignedIsSext }
    ensures held { AssignedNetHasItsNumber }
{}
