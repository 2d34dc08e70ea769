//! What the table of the grammar speaks of.

use v_token::token::Mark;

/// What one token may be.
#[derive(Clone, Copy)]
pub enum Terminal {
    /// An identifier.
    AName,
    /// A plain decimal.
    ADecimal,
    /// A based number without its size.
    ABased,
    /// `$signed` or `$unsigned`.
    AConversion,
    /// An operator before an operand.
    APrefix,
    /// An operator between two operands.
    AnOperator,
    TheWord(&'static str),
    TheMark(Mark),
}

/// What is expected at a place.
#[derive(Clone, Copy)]
pub enum Symbol {
    // one token: an identifier, the word `parameter`, a mark
    Name,
    ParameterWord,
    LeftParenthesis,
    RightParenthesis,
    RightBracket,
    RightBrace,
    Colon,
    Semicolon,
    Equals,
    Dot,
    At,
    // an expression; what an operator has before or after it; what may stand after that; the digits of a number after a decimal
    Whole,
    Operand,
    OperandRest,
    Digits,
    // the selects after a name; the second one; what stands after the first expression of a select, up to its bracket
    Selects,
    SecondSelect,
    Limit,
    // what stands after the first expression in braces; after a part in braces
    BracesRest,
    MoreParts,
    Target,
    MoreTargets,
    // a statement; after its target; after the statement of an if; after begin; up to end
    Statement,
    AssignmentRest,
    ElsePart,
    BlockName,
    Statements,
    // the items of a case: the first one; the others up to endcase, and those after default; after a value of such items
    FirstItem,
    CaseItems,
    LastItems,
    MoreValues,
    MoreLastValues,
    PerhapsColon,
    // what declarations may have; after a name, or a name and its value, of each kind of declaration, up to the semicolon
    NetKind,
    Sign,
    Range,
    PerhapsValue,
    MoreNames,
    MoreSettings,
    MoreNets,
    MoreVariables,
    MoreAssignments,
    // of instances: their parameters; what stands after the opening parenthesis; an expression that may be left out; after each entry
    Overrides,
    Connections,
    Entry,
    MoreNamed,
    MoreEntries,
    MoreInstances,
    // after @; after @(; an event; after an event
    Control,
    FirstEvent,
    Event,
    MoreEvents,
    // up to endmodule
    Items,
    // of a header: its parameters and ports; after a parameter's value, or a port's name, and after the comma there
    HeaderParameters,
    MoreParameters,
    NextParameter,
    HeaderPorts,
    FirstPort,
    MoreListed,
    MorePorts,
    NextPort,
    // up to the end
    Modules,
}

/// A token that may come, and what is expected after it.
pub type Rule = (Terminal, &'static [Symbol]);

/// A symbol that another one may begin with, and what is expected after it.
pub type Lead = (Symbol, &'static [Symbol]);

/// What is expected after a token: first these, then those.
pub type After = (&'static [Symbol], &'static [Symbol]);
