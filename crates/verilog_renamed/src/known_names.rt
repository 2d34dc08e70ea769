//! Laws on trees whose names the new scope knows, each the contract of a function without code.
ghost use Rattle.verilog_renamed.specs.KnownNames.{KnownExpressionsMeanTheSame, KnownConstantsAreTheSame, KnownReadBitsAreTheSame, KnownPartsMeanTheSame, EachKnownSelectMeansTheSame, KnownSelectsMeanTheSame, KnownTargetsNameTheSame, KnownWritesChangeTheSame, KnownUpdatesChangeTheSame, KnownRunsDoTheSame, KnownEdgesChangeTheSame, KnownTargetsHaveTheSameBits, KnownStatementsHaveTheSameBits, KnownCaseItemsReadTheSame, KnownCasesAreFullTheSame, KnownAssignmentsReachTheSame, KnownBlocksHaveTheSameBits, KnownTargetsHaveTheSame, KnownAssignmentsHoldTheSame, KnownRunsHoldTheSame, KnownBlocksHoldTheSame, KnownGivenBitsAreTheSame, KnownDependencesAreTheSame};

/// An expression whose names are known to the new scope has the sign, width and value of the expression, is constant where it is, and
/// reads the same bits; so do parts side by side, and selects.
pub fn known_expressions_mean_the_same()
    ensures expressions { KnownExpressionsMeanTheSame }
    ensures constants { KnownConstantsAreTheSame }
    ensures read { KnownReadBitsAreTheSame }
    ensures parts { KnownPartsMeanTheSame }
    ensures select { EachKnownSelectMeansTheSame }
    ensures selects { KnownSelectsMeanTheSame }
{}

/// A target whose names are known means the same places, and what writes, updates, runs and the clock's edge do is the same.
pub fn known_statements_do_the_same()
    ensures targets { KnownTargetsNameTheSame }
    ensures writes { KnownWritesChangeTheSame }
    ensures updates { KnownUpdatesChangeTheSame }
    ensures runs { KnownRunsDoTheSame }
    ensures edges { KnownEdgesChangeTheSame }
{}

/// Targets, statements, cases, assignments and blocks whose names are known read and assign the same bits, and no others.
pub fn known_trees_have_the_same_bits()
    ensures targets { KnownTargetsHaveTheSameBits }
    ensures statements { KnownStatementsHaveTheSameBits }
    ensures items { KnownCaseItemsReadTheSame }
    ensures full { KnownCasesAreFullTheSame }
    ensures assignments { KnownAssignmentsReachTheSame }
    ensures blocks { KnownBlocksHaveTheSameBits }
{}

/// Assignments and blocks whose names are known hold as equations where those with the old names do.
pub fn known_equations_hold_where_the_others_do()
    ensures targets { KnownTargetsHaveTheSame }
    ensures assignments { KnownAssignmentsHoldTheSame }
    ensures runs { KnownRunsHoldTheSame }
    ensures blocks { KnownBlocksHoldTheSame }
{}

/// Bits rest on the same bits, by an assignment or a connection whose names are known, and after such a block.
pub fn known_bits_rest_on_the_same()
    ensures assignments { KnownGivenBitsAreTheSame }
    ensures blocks { KnownDependencesAreTheSame }
{}
