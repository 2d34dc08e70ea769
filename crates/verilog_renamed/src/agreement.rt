//! Laws on scopes that agree on the names of a tree, each the contract of a function without code.
ghost use Rattle.verilog_renamed.specs.Agreement.{ExpressionsAreAgreedOn, PartsAreAgreedOn, EachSelectIsAgreedOn, SelectsAreAgreedOn, TargetsAreAgreedOn, WritesAreAgreedOn, UpdatesAreAgreedOn, StatementsAreAgreedOn, CaseItemsAreAgreedOn, FullCasesAreAgreedOn, AssignmentsAreAgreedOn, BlocksAreAgreedOn, GivenBitsAreAgreedOn, NamesInExpressions, NamesInTargets, NamesInStatements, NamesInAssignments, NamesInBlocks, TargetsHaveTheirNames, PlacesAreInTargets, UpdatesAreInStatements};

/// Scopes that agree on each name of a tree's list of names agree on each name in the tree, and on those of the places and updates that
/// it means.
pub fn names_stand_in_trees()
    ensures expressions { NamesInExpressions }
    ensures targets { NamesInTargets }
    ensures statements { NamesInStatements }
    ensures assignments { NamesInAssignments }
    ensures blocks { NamesInBlocks }
    ensures as_targets { TargetsHaveTheirNames }
    ensures places { PlacesAreInTargets }
    ensures updates { UpdatesAreInStatements }
{}

/// Scopes that agree on each name in an expression agree on the expression; so they do on parts side by side, and on selects.
pub fn scopes_agree_on_expressions()
    ensures expressions { ExpressionsAreAgreedOn }
    ensures parts { PartsAreAgreedOn }
    ensures select { EachSelectIsAgreedOn }
    ensures selects { SelectsAreAgreedOn }
{}

/// So do they on targets, and on numbers that are written and updates that take place.
pub fn scopes_agree_on_targets()
    ensures targets { TargetsAreAgreedOn }
    ensures writes { WritesAreAgreedOn }
    ensures updates { UpdatesAreAgreedOn }
{}

/// So do they on statements: what a run does, which bits it may assign and surely assigns, what is read from outside, and on what each
/// bit rests afterwards; on the items of a case, and whether it is full.
pub fn scopes_agree_on_statements()
    ensures statements { StatementsAreAgreedOn }
    ensures items { CaseItemsAreAgreedOn }
    ensures full { FullCasesAreAgreedOn }
{}

/// So do they on the assignments and blocks of a module, and on what gives a bit its value.
pub fn scopes_agree_on_modules()
    ensures assignments { AssignmentsAreAgreedOn }
    ensures blocks { BlocksAreAgreedOn }
    ensures given { GivenBitsAreAgreedOn }
{}
