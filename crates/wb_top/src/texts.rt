//! The texts that a call writes beside reports.

ghost use Rattle.std.specs.Prelude.{◌≡◌, ◌<◌, ◌++◌, ◌∷◌, [], codes, length, IfOk, IsTrue};
ghost use Rattle.ila_rules.specs.Rule.{rule_view, rule_name};
ghost use Rattle.ila_sim.specs.Scripts.{name_of_kind};
ghost use Rattle.v_lex.specs.Reading.{refusal_of};
ghost use Rattle.map_file.specs.Rule as map_rules;
ghost use Rattle.v_judged.specs.Refusal.{kind_of};
ghost use Rattle.check_cases.specs.Kinds.{text_kind, tree_kind, kind_name};
ghost use Rattle.check_limits.specs.View.{as_limit};
ghost use Rattle.trace_reading.specs.Rule as trace_rules;
ghost use Rattle.wb_top.specs.Texts.{usage_text, length_text, limit_text, fits_note, IsRefusalBy};
ghost use Rattle.wb_top.specs.Emitted.{not_yet_kind};

use crate::stop::NoMemory;
use check_limits::Limit;
use ila_rules::ModelRefusal;
use ila_sim::ScriptRefusal;
use itoa::Buffer;
use map_file::MapRefusal;
use std::alloc::{AllocError, Global};
use trace_reading::TraceRefusal;
use v_judged::DesignKind;
use v_lex::{LexKind, LexRefusal, Note};

/// The text for words that ask for nothing that the program does.
pub(crate) fn usage(alloc: Global) -> Result<Vec<u8>, NoMemory>
    ensures { IfOk result (λ text. text.items ≡ usage_text) }
{
    Vec::from_slice(alloc, b"usage\n")
}

/// The text for a model file that breaks a rule.
pub(crate) fn refusal_by(alloc: Global, broken: &ModelRefusal) -> Result<Vec<u8>, NoMemory>
    ensures { IfOk result (λ text. IsRefusalBy (rule_name (rule_view broken.now.rule)) text.items) }
{
    refusal_text_by(alloc, broken.rule.name().as_bytes(), broken.note.as_bytes())
}

/// The text for a map file that breaks a rule.
pub(crate) fn refusal_of_map(alloc: Global, refusal: &MapRefusal) -> Result<Vec<u8>, NoMemory>
    ensures { IfOk result (λ text. IsRefusalBy (map_rules.rule_name (map_rules.rule_view refusal.now.rule)) text.items) }
{
    let rule = refusal.rule.name();
    refusal_text_by(alloc, rule.as_bytes(), refusal.note.as_bytes())
}

/// The text for a trace file that breaks a rule.
pub(crate) fn refusal_of_trace(alloc: Global, broken: &TraceRefusal) -> Result<Vec<u8>, NoMemory>
    ensures { IfOk result (λ text. IsRefusalBy (trace_rules.rule_name (trace_rules.rule_view broken.now.rule)) text.items) }
{
    let rule = broken.rule.name();
    refusal_text_by(alloc, rule.as_bytes(), broken.note.as_bytes())
}

/// The text for a model that is not emitted yet.
pub(crate) fn refusal_of_children(alloc: Global) -> Result<Vec<u8>, NoMemory>
    ensures { IfOk result (λ text. IsRefusalBy not_yet_kind text.items) }
{
    refusal_text_by(alloc, b"N1 NotYet", b"child programs are not emitted yet")
}

/// The text of a refusal by the rule of this name, with this note.
fn refusal_text_by(alloc: Global, rule: &[u8], note: &[u8]) -> Result<Vec<u8>, NoMemory>
    ensures { IfOk result (λ text. text.items ≡ codes "refused " ++ (rule.now ++ 10 ∷ (codes "note " ++ (note.now ++ 10 ∷ [])))) }
{
    let mut text = Vec::from_slice(alloc, b"refused ")?;
    text.extend_from_slice(rule)?;
    text.extend_from_slice(b"\nnote ")?;
    text.extend_from_slice(note)?;
    text.extend_from_slice(b"\n")?;
    Ok(text)
}

/// The text for a script that is refused.
pub(crate) fn refusal_of_script(alloc: Global, refusal: &ScriptRefusal) -> Result<Vec<u8>, NoMemory>
    ensures { IfOk result (λ text. IsRefusalBy (name_of_kind refusal.now.kind) text.items) }
{
    refusal_text_by(
        alloc,
        refusal.kind.name().as_bytes(),
        refusal.note.as_bytes(),
    )
}

/// The most bytes of a file's name that a note shows.
const MOST_OF_NAME: usize = 32;

/// The name of a Verilog file as a note shows it, by its number among the Verilog files: the end of a long name.
fn shown_name(names: &[String], number: u32) -> &[u8] {
    match names.get(number as usize) {
        Some(name) => {
            let bytes = name.as_bytes();
            &bytes[bytes.len().saturating_sub(MOST_OF_NAME)..]
        }
        None => b"".as_slice(),
    }
}

/// The note with the name of its file before it. The names are those of the Verilog files.
fn with_name(alloc: Global, names: &[String], note: &Note) -> Result<Note, NoMemory>
    ensures { IfOk result (λ n. 0 < length n.text.items) }
{
    match note.named(alloc, shown_name(names, note.file)) {
        Some(note) => Ok(note),
        None => Err(AllocError),
    }
}

/// The text for a Verilog file whose text is refused.
pub(crate) fn refusal_of_text(
    alloc: Global,
    names: &[String],
    broken: &LexRefusal,
) -> Result<Vec<u8>, NoMemory>
    ensures { IfOk result (λ text. IsRefusalBy (text_kind (refusal_of broken.now.kind)) text.items) }
{
    let note = with_name(alloc, names, &broken.note)?;
    refusal_text_by(alloc, text_kind(broken.kind).as_bytes(), note.as_bytes())
}

/// The text for Verilog files whose tokens have no tree.
pub(crate) fn refusal_of_tree(
    alloc: Global,
    names: &[String],
    note: &Note,
) -> Result<Vec<u8>, NoMemory>
    ensures { IfOk result (λ text. IsRefusalBy tree_kind text.items) }
{
    let note = with_name(alloc, names, note)?;
    refusal_text_by(alloc, b"V6 Syntax", note.as_bytes())
}

/// The name of a kind by which Verilog texts are refused.
fn text_kind(kind: LexKind) -> &'static str
    ensures { result.now ≡ text_kind (refusal_of kind) }
{
    match kind {
        LexKind::NotText => "V1 NotText",
        LexKind::BadToken => "V2 BadToken",
        LexKind::BadDirective => "V3 BadDirective",
        LexKind::Unsupported => "V4 Unsupported",
        LexKind::TooDeep => "V5 TooDeep",
    }
}

/// The text for a design that breaks a rule, with the note on its place, or else on the rule.
pub(crate) fn refusal_of_design(
    alloc: Global,
    names: &[String],
    kind: DesignKind,
    place: &Option<Note>,
) -> Result<Vec<u8>, NoMemory>
    ensures { IfOk result (λ text. IsRefusalBy (kind_name (kind_of kind)) text.items) }
{
    match place {
        Some(note) => refusal_there(alloc, names, kind, note),
        None => refusal_by_rule(alloc, kind),
    }
}

/// The text for a design that breaks a rule, with a note on the place.
fn refusal_there(
    alloc: Global,
    names: &[String],
    kind: DesignKind,
    note: &Note,
) -> Result<Vec<u8>, NoMemory>
    ensures { IfOk result (λ text. IsRefusalBy (kind_name (kind_of kind)) text.items) }
{
    let note = with_name(alloc, names, note)?;
    refusal_text_by(alloc, design_kind(kind).as_bytes(), note.as_bytes())
}

/// The text for a design that breaks a rule, with a note on the rule.
fn refusal_by_rule(alloc: Global, kind: DesignKind) -> Result<Vec<u8>, NoMemory>
    ensures { IfOk result (λ text. IsRefusalBy (kind_name (kind_of kind)) text.items) }
{
    refusal_text_by(
        alloc,
        design_kind(kind).as_bytes(),
        design_note(kind).as_bytes(),
    )
}

/// The name of a kind by which designs are refused.
fn design_kind(kind: DesignKind) -> &'static str
    ensures { result.now ≡ kind_name (kind_of kind) }
{
    match kind {
        DesignKind::NoTop => "V7 NoTop",
        DesignKind::Undeclared => "V8 Undeclared",
        DesignKind::DuplicateName => "V9 DuplicateName",
        DesignKind::BadHierarchy => "V10 BadHierarchy",
        DesignKind::HasXz => "V11 HasXZ",
        DesignKind::BadPort => "V12 BadPort",
        DesignKind::BadConstant => "V13 BadConstant",
        DesignKind::WidthOver128 => "V14 WidthOver128",
        DesignKind::BadSelect => "V15 BadSelect",
        DesignKind::MemoryUse => "V16 MemoryUse",
        DesignKind::ClockAsData => "V17 ClockAsData",
        DesignKind::BadEventList => "V18 BadEventList",
        DesignKind::BlockingInClocked => "V19 BlockingInClocked",
        DesignKind::NonblockingInComb => "V20 NonblockingInComb",
        DesignKind::Latch => "V21 Latch",
        DesignKind::BadDriver => "V22 BadDriver",
        DesignKind::Undriven => "V23 Undriven",
        DesignKind::CombLoop => "V24 CombLoop",
    }
}

/// The rule of a kind in a line, where there is no place to lead to.
fn design_note(kind: DesignKind) -> &'static str
    ensures { IsTrue (fits_note result.now) }
{
    match kind {
        DesignKind::NoTop => "no module has the top's name, or the clock is no one-bit input of it",
        DesignKind::Undeclared => "a net, a variable, a parameter or a module is not declared",
        DesignKind::DuplicateName => "two modules share a name, or two declarations of one module",
        DesignKind::BadHierarchy =>
            "a module stands below itself, or more than 65,536 instances stand below the top",
        DesignKind::HasXz => "a number has an x, z or ? digit where none may stand",
        DesignKind::BadPort =>
            "a port lacks a direction or a place in the list, or is declared two ways",
        DesignKind::BadConstant =>
            "a constant has no value or is out of range, or a divisor is no constant",
        DesignKind::WidthOver128 =>
            "a net, a number, an expression or a target has more than 128 bits",
        DesignKind::BadSelect =>
            "a select that its name does not have, or against the declared range",
        DesignKind::MemoryUse =>
            "a memory without an index, too large, or written outside a clocked block",
        DesignKind::ClockAsData => "the clock stands elsewhere than as an event",
        DesignKind::BadEventList =>
            "a block's events are none that a clocked or a combinational block may have",
        DesignKind::BlockingInClocked => "a blocking assignment in a clocked block",
        DesignKind::NonblockingInComb => "a nonblocking assignment in a combinational block",
        DesignKind::Latch => "a combinational block leaves a bit unassigned, or reads it before",
        DesignKind::BadDriver => "a bit has two drivers, or a name is assigned where it may not be",
        DesignKind::Undriven =>
            "a bit that is read, or a bit of an output of the top, has no driver",
        DesignKind::CombLoop => "a bit depends on itself, with no register between",
    }
}

/// The text for a file that is too long, by its number in the order of reading, from 0.
pub(crate) fn limit_of_length(alloc: Global, number: usize) -> Result<Vec<u8>, NoMemory>
    ensures { IfOk result (λ text. text.items ≡ length_text number) }
{
    let mut buffer = Buffer::new();
    limit_line(alloc, b"limit length ", buffer.format(number).as_bytes())
}

/// The text for a check that is over a limit.
pub(crate) fn limit_of_check(alloc: Global, limit: Limit) -> Result<Vec<u8>, NoMemory>
    ensures { IfOk result (λ text. text.items ≡ limit_text (as_limit limit)) }
{
    let mut buffer = Buffer::new();
    match limit {
        Limit::Memory(bits) => limit_line(alloc, b"limit memory ", buffer.format(bits).as_bytes()),
        Limit::Unroll(steps) => limit_line(
            alloc,
            b"limit unroll ",
            buffer.format(steps).as_bytes(),
        ),
    }
}

/// A line of a limit and the number that is over it.
fn limit_line(alloc: Global, limit: &[u8], number: &[u8]) -> Result<Vec<u8>, NoMemory>
    ensures { IfOk result (λ text. text.items ≡ limit.now ++ (number.now ++ 10 ∷ [])) }
{
    let mut text = Vec::from_slice(alloc, limit)?;
    text.extend_from_slice(number)?;
    text.extend_from_slice(b"\n")?;
    Ok(text)
}
