//! The grammar as a table: what may stand at each place, told by one token, and what is expected after that token.

ghost use Rattle.std.specs.Prelude.{◌≡◌, map, option_map};
ghost use Rattle.v_place.specs.Table.{rules, leads, is_optional};
ghost use Rattle.v_place.specs.View.{symbol_of, rule_of, lead_of};

use crate::symbols::Symbol::{
    AssignmentRest, At, BlockName, BracesRest, CaseItems, Colon, Connections, Control, Digits, Dot,
    ElsePart, Entry, Equals, Event, FirstEvent, FirstItem, FirstPort, HeaderParameters,
    HeaderPorts, Items, LastItems, LeftParenthesis, Limit, Modules, MoreAssignments, MoreEntries,
    MoreEvents, MoreInstances, MoreLastValues, MoreListed, MoreNamed, MoreNames, MoreNets,
    MoreParameters, MoreParts, MorePorts, MoreSettings, MoreTargets, MoreValues, MoreVariables,
    Name, NetKind, NextParameter, NextPort, Operand, OperandRest, Overrides, ParameterWord,
    PerhapsColon, PerhapsValue, Range, RightBrace, RightBracket, RightParenthesis, SecondSelect,
    Selects, Semicolon, Sign, Statement, Statements, Target, Whole,
};
use crate::symbols::Terminal::{
    ABased, AConversion, ADecimal, AName, APrefix, AnOperator, TheMark, TheWord,
};
use crate::symbols::{Lead, Rule, Symbol};
use v_token::token::Mark;

static NO_RULES: [Rule; 0] = [];

static NAME_RULES: [Rule; 1] = [(AName, &[])];

static PARAMETER_WORD_RULES: [Rule; 1] = [(TheWord("parameter"), &[])];

static LEFT_PARENTHESIS_RULES: [Rule; 1] = [(TheMark(Mark::LeftParenthesis), &[])];

static RIGHT_PARENTHESIS_RULES: [Rule; 1] = [(TheMark(Mark::RightParenthesis), &[])];

static RIGHT_BRACKET_RULES: [Rule; 1] = [(TheMark(Mark::RightBracket), &[])];

static RIGHT_BRACE_RULES: [Rule; 1] = [(TheMark(Mark::RightBrace), &[])];

static COLON_RULES: [Rule; 1] = [(TheMark(Mark::Colon), &[])];

static SEMICOLON_RULES: [Rule; 1] = [(TheMark(Mark::Semicolon), &[])];

static EQUALS_RULES: [Rule; 1] = [(TheMark(Mark::Equals), &[])];

static DOT_RULES: [Rule; 1] = [(TheMark(Mark::Dot), &[])];

static AT_RULES: [Rule; 1] = [(TheMark(Mark::At), &[])];

static OPERAND_RULES: [Rule; 7] = [
    (AName, &[Selects]),
    (ADecimal, &[Digits]),
    (ABased, &[]),
    (APrefix, &[Operand]),
    (TheMark(Mark::LeftParenthesis), &[Whole, RightParenthesis]),
    (TheMark(Mark::LeftBrace), &[Whole, BracesRest]),
    (AConversion, &[LeftParenthesis, Whole, RightParenthesis]),
];

static OPERAND_REST_RULES: [Rule; 2] = [
    (AnOperator, &[Operand, OperandRest]),
    (TheMark(Mark::Question), &[Whole, Colon, Whole]),
];

static DIGITS_RULES: [Rule; 1] = [(ABased, &[])];

static SELECTS_RULES: [Rule; 1] = [(TheMark(Mark::LeftBracket), &[Whole, Limit, SecondSelect])];

static SECOND_SELECT_RULES: [Rule; 1] = [(TheMark(Mark::LeftBracket), &[Whole, Limit])];

static LIMIT_RULES: [Rule; 4] = [
    (TheMark(Mark::RightBracket), &[]),
    (TheMark(Mark::Colon), &[Whole, RightBracket]),
    (TheMark(Mark::PlusColon), &[Whole, RightBracket]),
    (TheMark(Mark::MinusColon), &[Whole, RightBracket]),
];

static BRACES_REST_RULES: [Rule; 3] = [
    (TheMark(Mark::LeftBrace), &[Whole, MoreParts, RightBrace]),
    (TheMark(Mark::Comma), &[Whole, MoreParts]),
    (TheMark(Mark::RightBrace), &[]),
];

static MORE_PARTS_RULES: [Rule; 2] = [
    (TheMark(Mark::Comma), &[Whole, MoreParts]),
    (TheMark(Mark::RightBrace), &[]),
];

static TARGET_RULES: [Rule; 2] = [
    (AName, &[Selects]),
    (TheMark(Mark::LeftBrace), &[Target, MoreTargets]),
];

static MORE_TARGETS_RULES: [Rule; 2] = [
    (TheMark(Mark::Comma), &[Target, MoreTargets]),
    (TheMark(Mark::RightBrace), &[]),
];

static STATEMENT_RULES: [Rule; 7] = [
    (AName, &[Selects, AssignmentRest]),
    (
        TheMark(Mark::LeftBrace),
        &[Target, MoreTargets, AssignmentRest],
    ),
    (TheMark(Mark::Semicolon), &[]),
    (
        TheWord("if"),
        &[
            LeftParenthesis,
            Whole,
            RightParenthesis,
            Statement,
            ElsePart,
        ],
    ),
    (TheWord("begin"), &[BlockName, Statements]),
    (
        TheWord("case"),
        &[LeftParenthesis, Whole, RightParenthesis, FirstItem],
    ),
    (
        TheWord("casez"),
        &[LeftParenthesis, Whole, RightParenthesis, FirstItem],
    ),
];

static ASSIGNMENT_REST_RULES: [Rule; 2] = [
    (TheMark(Mark::Equals), &[Whole, Semicolon]),
    (TheMark(Mark::LessEquals), &[Whole, Semicolon]),
];

static ELSE_PART_RULES: [Rule; 1] = [(TheWord("else"), &[Statement])];

static BLOCK_NAME_RULES: [Rule; 1] = [(TheMark(Mark::Colon), &[Name])];

static STATEMENTS_RULES: [Rule; 1] = [(TheWord("end"), &[])];

static FIRST_ITEM_RULES: [Rule; 1] = [(TheWord("default"), &[PerhapsColon, Statement, LastItems])];

static CASE_ITEMS_RULES: [Rule; 2] = [
    (TheWord("default"), &[PerhapsColon, Statement, LastItems]),
    (TheWord("endcase"), &[]),
];

static LAST_ITEMS_RULES: [Rule; 1] = [(TheWord("endcase"), &[])];

static MORE_VALUES_RULES: [Rule; 2] = [
    (TheMark(Mark::Comma), &[Whole, MoreValues]),
    (TheMark(Mark::Colon), &[Statement, CaseItems]),
];

static MORE_LAST_VALUES_RULES: [Rule; 2] = [
    (TheMark(Mark::Comma), &[Whole, MoreLastValues]),
    (TheMark(Mark::Colon), &[Statement, LastItems]),
];

static PERHAPS_COLON_RULES: [Rule; 1] = [(TheMark(Mark::Colon), &[])];

static NET_KIND_RULES: [Rule; 2] = [(TheWord("wire"), &[]), (TheWord("reg"), &[])];

static SIGN_RULES: [Rule; 1] = [(TheWord("signed"), &[])];

static RANGE_RULES: [Rule; 1] = [(
    TheMark(Mark::LeftBracket),
    &[Whole, Colon, Whole, RightBracket],
)];

static PERHAPS_VALUE_RULES: [Rule; 1] = [(TheMark(Mark::Equals), &[Whole])];

static MORE_NAMES_RULES: [Rule; 2] = [
    (TheMark(Mark::Comma), &[Name, MoreNames]),
    (TheMark(Mark::Semicolon), &[]),
];

static MORE_SETTINGS_RULES: [Rule; 2] = [
    (TheMark(Mark::Comma), &[Name, Equals, Whole, MoreSettings]),
    (TheMark(Mark::Semicolon), &[]),
];

static MORE_NETS_RULES: [Rule; 2] = [
    (TheMark(Mark::Comma), &[Name, PerhapsValue, MoreNets]),
    (TheMark(Mark::Semicolon), &[]),
];

static MORE_VARIABLES_RULES: [Rule; 2] = [
    (TheMark(Mark::Comma), &[Name, Range, MoreVariables]),
    (TheMark(Mark::Semicolon), &[]),
];

static MORE_ASSIGNMENTS_RULES: [Rule; 2] = [
    (
        TheMark(Mark::Comma),
        &[Target, Equals, Whole, MoreAssignments],
    ),
    (TheMark(Mark::Semicolon), &[]),
];

static OVERRIDES_RULES: [Rule; 1] = [(TheMark(Mark::Hash), &[LeftParenthesis, Connections])];

static CONNECTIONS_RULES: [Rule; 3] = [
    (
        TheMark(Mark::Dot),
        &[Name, LeftParenthesis, Entry, RightParenthesis, MoreNamed],
    ),
    (TheMark(Mark::Comma), &[Entry, MoreEntries]),
    (TheMark(Mark::RightParenthesis), &[]),
];

static MORE_NAMED_RULES: [Rule; 2] = [
    (
        TheMark(Mark::Comma),
        &[
            Dot,
            Name,
            LeftParenthesis,
            Entry,
            RightParenthesis,
            MoreNamed,
        ],
    ),
    (TheMark(Mark::RightParenthesis), &[]),
];

static MORE_ENTRIES_RULES: [Rule; 2] = [
    (TheMark(Mark::Comma), &[Entry, MoreEntries]),
    (TheMark(Mark::RightParenthesis), &[]),
];

static MORE_INSTANCES_RULES: [Rule; 2] = [
    (
        TheMark(Mark::Comma),
        &[Name, LeftParenthesis, Connections, MoreInstances],
    ),
    (TheMark(Mark::Semicolon), &[]),
];

static CONTROL_RULES: [Rule; 2] = [
    (TheMark(Mark::Star), &[]),
    (TheMark(Mark::LeftParenthesis), &[FirstEvent]),
];

static FIRST_EVENT_RULES: [Rule; 4] = [
    (TheMark(Mark::Star), &[RightParenthesis]),
    (AName, &[MoreEvents]),
    (TheWord("posedge"), &[Name, MoreEvents]),
    (TheWord("negedge"), &[Name, MoreEvents]),
];

static EVENT_RULES: [Rule; 3] = [
    (AName, &[]),
    (TheWord("posedge"), &[Name]),
    (TheWord("negedge"), &[Name]),
];

static MORE_EVENTS_RULES: [Rule; 3] = [
    (TheWord("or"), &[Event, MoreEvents]),
    (TheMark(Mark::Comma), &[Event, MoreEvents]),
    (TheMark(Mark::RightParenthesis), &[]),
];

static ITEMS_RULES: [Rule; 10] = [
    (
        AName,
        &[
            Overrides,
            Name,
            LeftParenthesis,
            Connections,
            MoreInstances,
            Items,
        ],
    ),
    (
        TheWord("wire"),
        &[Sign, Range, Name, PerhapsValue, MoreNets, Items],
    ),
    (
        TheWord("reg"),
        &[Sign, Range, Name, Range, MoreVariables, Items],
    ),
    (
        TheWord("assign"),
        &[Target, Equals, Whole, MoreAssignments, Items],
    ),
    (TheWord("always"), &[At, Control, Statement, Items]),
    (
        TheWord("input"),
        &[NetKind, Sign, Range, Name, MoreNames, Items],
    ),
    (
        TheWord("output"),
        &[NetKind, Sign, Range, Name, MoreNames, Items],
    ),
    (
        TheWord("parameter"),
        &[Sign, Range, Name, Equals, Whole, MoreSettings, Items],
    ),
    (
        TheWord("localparam"),
        &[Sign, Range, Name, Equals, Whole, MoreSettings, Items],
    ),
    (TheWord("endmodule"), &[]),
];

static HEADER_PARAMETERS_RULES: [Rule; 1] = [(
    TheMark(Mark::Hash),
    &[
        LeftParenthesis,
        ParameterWord,
        Sign,
        Range,
        Name,
        Equals,
        Whole,
        MoreParameters,
    ],
)];

static MORE_PARAMETERS_RULES: [Rule; 2] = [
    (TheMark(Mark::Comma), &[NextParameter]),
    (TheMark(Mark::RightParenthesis), &[]),
];

static NEXT_PARAMETER_RULES: [Rule; 2] = [
    (AName, &[Equals, Whole, MoreParameters]),
    (
        TheWord("parameter"),
        &[Sign, Range, Name, Equals, Whole, MoreParameters],
    ),
];

static HEADER_PORTS_RULES: [Rule; 1] = [(TheMark(Mark::LeftParenthesis), &[FirstPort])];

static FIRST_PORT_RULES: [Rule; 4] = [
    (TheMark(Mark::RightParenthesis), &[]),
    (AName, &[MoreListed]),
    (TheWord("input"), &[NetKind, Sign, Range, Name, MorePorts]),
    (TheWord("output"), &[NetKind, Sign, Range, Name, MorePorts]),
];

static MORE_LISTED_RULES: [Rule; 2] = [
    (TheMark(Mark::Comma), &[Name, MoreListed]),
    (TheMark(Mark::RightParenthesis), &[]),
];

static MORE_PORTS_RULES: [Rule; 2] = [
    (TheMark(Mark::Comma), &[NextPort]),
    (TheMark(Mark::RightParenthesis), &[]),
];

static NEXT_PORT_RULES: [Rule; 3] = [
    (AName, &[MorePorts]),
    (TheWord("input"), &[NetKind, Sign, Range, Name, MorePorts]),
    (TheWord("output"), &[NetKind, Sign, Range, Name, MorePorts]),
];

static MODULES_RULES: [Rule; 1] = [(
    TheWord("module"),
    &[
        Name,
        HeaderParameters,
        HeaderPorts,
        Semicolon,
        Items,
        Modules,
    ],
)];

/// The rules of a symbol.
#[tactic(auto, unfolding(crate::specs::Table::rules))]
pub fn rules_of(symbol: Symbol) -> &'static [Rule]
    ensures { map rule_of result.now ≡ rules (symbol_of symbol) }
{
    match symbol {
        Name => &NAME_RULES,
        ParameterWord => &PARAMETER_WORD_RULES,
        LeftParenthesis => &LEFT_PARENTHESIS_RULES,
        RightParenthesis => &RIGHT_PARENTHESIS_RULES,
        RightBracket => &RIGHT_BRACKET_RULES,
        RightBrace => &RIGHT_BRACE_RULES,
        Colon => &COLON_RULES,
        Semicolon => &SEMICOLON_RULES,
        Equals => &EQUALS_RULES,
        Dot => &DOT_RULES,
        At => &AT_RULES,
        Whole => &NO_RULES,
        Operand => &OPERAND_RULES,
        OperandRest => &OPERAND_REST_RULES,
        Digits => &DIGITS_RULES,
        Selects => &SELECTS_RULES,
        SecondSelect => &SECOND_SELECT_RULES,
        Limit => &LIMIT_RULES,
        BracesRest => &BRACES_REST_RULES,
        MoreParts => &MORE_PARTS_RULES,
        Target => &TARGET_RULES,
        MoreTargets => &MORE_TARGETS_RULES,
        Statement => &STATEMENT_RULES,
        AssignmentRest => &ASSIGNMENT_REST_RULES,
        ElsePart => &ELSE_PART_RULES,
        BlockName => &BLOCK_NAME_RULES,
        Statements => &STATEMENTS_RULES,
        FirstItem => &FIRST_ITEM_RULES,
        CaseItems => &CASE_ITEMS_RULES,
        LastItems => &LAST_ITEMS_RULES,
        MoreValues => &MORE_VALUES_RULES,
        MoreLastValues => &MORE_LAST_VALUES_RULES,
        PerhapsColon => &PERHAPS_COLON_RULES,
        NetKind => &NET_KIND_RULES,
        Sign => &SIGN_RULES,
        Range => &RANGE_RULES,
        PerhapsValue => &PERHAPS_VALUE_RULES,
        MoreNames => &MORE_NAMES_RULES,
        MoreSettings => &MORE_SETTINGS_RULES,
        MoreNets => &MORE_NETS_RULES,
        MoreVariables => &MORE_VARIABLES_RULES,
        MoreAssignments => &MORE_ASSIGNMENTS_RULES,
        Overrides => &OVERRIDES_RULES,
        Connections => &CONNECTIONS_RULES,
        Entry => &NO_RULES,
        MoreNamed => &MORE_NAMED_RULES,
        MoreEntries => &MORE_ENTRIES_RULES,
        MoreInstances => &MORE_INSTANCES_RULES,
        Control => &CONTROL_RULES,
        FirstEvent => &FIRST_EVENT_RULES,
        Event => &EVENT_RULES,
        MoreEvents => &MORE_EVENTS_RULES,
        Items => &ITEMS_RULES,
        HeaderParameters => &HEADER_PARAMETERS_RULES,
        MoreParameters => &MORE_PARAMETERS_RULES,
        NextParameter => &NEXT_PARAMETER_RULES,
        HeaderPorts => &HEADER_PORTS_RULES,
        FirstPort => &FIRST_PORT_RULES,
        MoreListed => &MORE_LISTED_RULES,
        MorePorts => &MORE_PORTS_RULES,
        NextPort => &NEXT_PORT_RULES,
        Modules => &MODULES_RULES,
    }
}

/// What it may begin with besides: another symbol, by its rules, and what is expected after that.
#[tactic(auto, unfolding(crate::specs::Table::leads))]
pub fn leads_with(symbol: Symbol) -> Option<Lead>
    ensures { option_map lead_of result ≡ leads (symbol_of symbol) }
{
    match symbol {
        Whole => Some((Operand, &[OperandRest])),
        Entry => Some((Operand, &[OperandRest])),
        Connections => Some((Operand, &[OperandRest, MoreEntries])),
        FirstItem => Some((Operand, &[OperandRest, MoreValues])),
        CaseItems => Some((Operand, &[OperandRest, MoreValues])),
        LastItems => Some((Operand, &[OperandRest, MoreLastValues])),
        Statements => Some((Statement, &[Statements])),
        _ => None,
    }
}

/// Whether the symbol may be left out.
#[tactic(auto, unfolding(crate::specs::Table::is_optional))]
pub fn is_optional(symbol: Symbol) -> bool
    ensures { result ≡ is_optional (symbol_of symbol) }
{
    match symbol {
        OperandRest => true,
        Digits => true,
        Selects => true,
        SecondSelect => true,
        ElsePart => true,
        BlockName => true,
        PerhapsColon => true,
        NetKind => true,
        Sign => true,
        Range => true,
        PerhapsValue => true,
        Overrides => true,
        Entry => true,
        HeaderParameters => true,
        HeaderPorts => true,
        Modules => true,
        _ => false,
    }
}
