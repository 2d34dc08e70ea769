//! Notes that lead to what is refused in a script. They are looked for once its reading has refused, by trying its lines again.

ghost use Rattle.std.specs.Prelude.{◌≡◌, ◌<◌, [], IfOk, IsTrue, map, true, option_map};
ghost use Rattle.scripts.specs.Script.{words_of, lines_of};
ghost use Rattle.ila_file.specs.Places.{note_text, found_text};
ghost use Rattle.ila_sim.specs.Faults.{words_fault, line_fault, left_out, first_left_out, fault_note, missing_note, first_bad_note, first_missing_note, script_note};
ghost use Rattle.ila_sim.specs.Lines.{found_view, sets_view};
ghost use Rattle.ila_sim.specs.Names.{settable_of};
ghost use Rattle.ila_sim.specs.Noted.{fault_view};
ghost use Rattle.ila_sim.specs.Sets.{are_right};
ghost use Rattle.ila_sim.specs.Settables.{settables_view};

use crate::cuts::{has_return, is_skipped, next_line, next_word};
use crate::index::Index;
use crate::line::{Found, Line};
use crate::missing::first_left_out;
use crate::reading::is_utf8;
use crate::refusal::ScriptKind;
use crate::script::line_in;
use crate::set::Set;
use crate::sets::{key_of, set_in};
use crate::settables::Names;
use crate::stop::Stop;
use ila_file::Note;
use itoa::Buffer;
use std::alloc::{AllocError, Global};
use std::collections::BTreeSet;
use wb_terms::NoMemory;

/// What is wrong with a line: a word of it, and what is said of it.
#[derive(Clone, Copy)]
struct Fault<'a> {
    word: &'a [u8],
    says: &'static [u8],
}

/// The note that leads to what is refused, where something is.
pub(crate) fn note_of<'a>(
    alloc: Global,
    bytes: &'a [u8],
    names: &'a Names,
    kind: ScriptKind,
) -> Result<Option<Note>, NoMemory>
    ensures { IfOk result (λ o. found_text o ≡ script_note kind (settables_view names.now) bytes.now) }
{
    let states = Index::new(alloc, &names.states)?;
    let inputs = Index::new(alloc, &names.inputs)?;
    let found = Found { states, inputs };
    match kind {
        ScriptKind::BadLine => {
            let note = bad_line_note(alloc, &found, bytes)?;
            Ok(note)
        }
        ScriptKind::MissingInput => {
            let note = missing_input_note(alloc, &found, bytes)?;
            Ok(note)
        }
    }
}

/// The note of the first bad line.
fn bad_line_note<'a>(
    alloc: Global,
    found: &Found<'a>,
    bytes: &'a [u8],
) -> Result<Option<Note>, NoMemory>
    ensures { IfOk result (λ o. found_text o ≡ first_bad_note (found_view found.now) 1 true (lines_of bytes.now)) }
{
    let mut number = 0u128;
    let mut is_first = true;
    let mut rest = Some(bytes);
    while let Some(text) = rest {
        let (line, next) = next_line(text);
        number = number.saturating_add(1);
        if let Some(fault) = line_fault(alloc, found, line, is_first)? {
            let note = fault_note(alloc, number, fault)?;
            return Ok(Some(note));
        }
        is_first = is_first && is_skipped(line);
        rest = next;
    }
    Ok(None)
}

/// What is wrong with a line, if anything is.
fn line_fault<'a>(
    alloc: Global,
    found: &Found<'a>,
    line: &'a [u8],
    is_first: bool,
) -> Result<Option<Fault<'a>>, NoMemory>
    ensures { IfOk result (λ o. option_map fault_view o ≡ line_fault (found_view found.now) is_first line.now) }
{
    if !is_utf8(line) {
        return Ok(Some(said(b"not UTF-8")));
    }
    if is_skipped(line) {
        return Ok(None);
    }
    if has_return(line) {
        return Ok(Some(said(b"a carriage return within the line")));
    }
    match next_word(line) {
        None => Ok(Some(said(b"blanks alone"))),
        Some((word, rest)) => {
            if word == b"state".as_slice() {
                if !is_first {
                    return Ok(Some(Fault {
                        word,
                        says: b" is not first",
                    }));
                }
                let fault = words_fault(alloc, &found.states, rest)?;
                return Ok(fault);
            }
            if word == b"in".as_slice() {
                let fault = words_fault(alloc, &found.inputs, rest)?;
                return Ok(fault);
            }
            Ok(Some(Fault { word, says: b"" }))
        }
    }
}

/// A fault of the line as a whole.
fn said<'a>(says: &'static [u8]) -> Fault<'a>
    ensures word { result.word.now ≡ [] }
    ensures says { result.says.now ≡ says.now }
{
    Fault { word: b"", says }
}

/// The first word that sets nothing, or sets again what is set.
fn words_fault<'a>(
    alloc: Global,
    index: &Index<'a>,
    line: &'a [u8],
) -> Result<Option<Fault<'a>>, NoMemory>
    ensures { IfOk result (λ o. option_map fault_view o ≡ words_fault (map settable_of index.now.settables.now) [] (words_of line.now)) }
{
    let mut seen = BTreeSet::new(alloc);
    let mut rest = line;
    while let Some((word, next)) = next_word(rest) {
        let Some(set) = set_in(index, word) else {
            return Ok(Some(Fault { word, says: b"" }));
        };
        if !seen.insert(key_of(&set))? {
            return Ok(Some(Fault {
                word,
                says: b" again",
            }));
        }
        rest = next;
    }
    Ok(None)
}

/// The note of the first line that leaves out an input.
fn missing_input_note<'a>(
    alloc: Global,
    found: &Found<'a>,
    bytes: &'a [u8],
) -> Result<Option<Note>, NoMemory>
    ensures { IfOk result (λ o. found_text o ≡ first_missing_note (found_view found.now) 1 (lines_of bytes.now)) }
{
    let mut number = 0u128;
    let mut rest = Some(bytes);
    while let Some(text) = rest {
        let (line, next) = next_line(text);
        number = number.saturating_add(1);
        if let Some(word) = left_out(alloc, found, line)? {
            let note = missing_note(alloc, number, word)?;
            return Ok(Some(note));
        }
        rest = next;
    }
    Ok(None)
}

/// The name of the first input that an input line leaves out.
fn left_out<'a>(
    alloc: Global,
    found: &Found<'a>,
    line: &'a [u8],
) -> Result<Option<&'a [u8]>, NoMemory>
    ensures { IfOk result (λ o. option_map (λ n. n.now) o ≡ left_out (found_view found.now) line.now) }
{
    if is_skipped(line) {
        return Ok(None);
    }
    match line_in(alloc, found, line) {
        Err(Stop::Memory) => Err(AllocError),
        Err(Stop::Refused) => Ok(None),
        Ok(Line::State(_)) => Ok(None),
        Ok(Line::Input(sets)) => {
            let input = input_left_out(alloc, &found.inputs, &sets)?;
            Ok(input)
        }
    }
}

/// The name of the first input that these leave out.
fn input_left_out<'a>(
    alloc: Global,
    inputs: &Index<'a>,
    sets: &[Set],
) -> Result<Option<&'a [u8]>, NoMemory>
    requires { IsTrue (are_right (map settable_of inputs.now.settables.now) sets.now) }
    ensures { IfOk result (λ o. option_map (λ n. n.now) o ≡ first_left_out (sets_view (map settable_of inputs.now.settables.now) sets.now) (map settable_of inputs.now.settables.now)) }
{
    match first_left_out(alloc, inputs.settables, sets)? {
        None => Ok(None),
        Some(place) => Ok(Some(inputs.settables[place].name.as_slice())),
    }
}

fn missing_note(alloc: Global, number: u128, word: &[u8]) -> Result<Note, NoMemory>
    ensures { IfOk result (λ n. note_text n ≡ missing_note number word.now) }
{
    let fault = Fault {
        word,
        says: b" is missing",
    };
    let note = fault_note(alloc, number, fault)?;
    Ok(note)
}

/// The note of a fault of a line.
fn fault_note(alloc: Global, number: u128, fault: Fault<'_>) -> Result<Note, NoMemory>
    ensures { IfOk result (λ n. note_text n ≡ fault_note number (fault_view fault.entry)) }
{
    let mut buffer = Buffer::new();
    let mut text = Vec::from_slice(alloc, b"line ")?;
    text.extend_from_slice(buffer.format(number).as_bytes())?;
    text.extend_from_slice(b": ")?;
    text.extend_from_slice(fault.word)?;
    text.extend_from_slice(fault.says)?;
    let note = Note::new(alloc, &text)?;
    Ok(note)
}
