//! The tokens of files, or why they are refused.

ghost use Rattle.std.specs.Prelude.{◌≡◌, ◌++◌, ◌<◌, ℕ, List, map, take, not, is_some, string_bytes, slice_get, IfOk, IfErr, IfSome};
ghost use Rattle.std.specs.List.{list_all, All};
ghost use Rattle.std.specs.Str.{is_utf8};
ghost use Rattle.verilog_text.specs.Text.{tokens_in};
ghost use Rattle.v_lex.specs.Walk.{judged, walked};
ghost use Rattle.v_lex.specs.Reading.{reading_of, IsRead};
ghost use Rattle.v_lex.specs.Answer.{IsAnswer, IsOfKind, IsNoted, IsNotedSomewhere};
ghost use Rattle.v_lex.specs.Notes.{position_from, bytes_at, position_at, position_text, file_text, use_text, word_in, hexadecimal_digit, byte_text, front_text, has_byte, returns_text, is_identifier, token_before, identifier_text, after_text, is_before, further, furthest, use_behind, use_after, note_of, end_of, place_or_end, file_of_token, note_behind};
ghost use Rattle.v_lex.specs.Sites.{walked_spots};
ghost use Rattle.v_lex.specs.Spots.{spots_in};
ghost use Rattle.v_lex.specs.Sited.{spot_of};
ghost use Rattle.v_lex.specs.Places.{AreShort, IsSlice};

use crate::fault::{Fault, remark_text};
use crate::nesting::too_deep;
use crate::note::Note;
use crate::place::{Place, place_of, short};
use crate::run::{Run, behind, first_bytes, is_graphic, split_run};
use crate::state::Reader;
use crate::stop::{LexKind, LexRefusal, LexStop, NoMemory, Stop};
use std::alloc::{AllocError, Global};
use v_token::token::{Token, TokenKind};
use wb_names::is_reserved_word;

/// Whether the bytes are UTF-8.
fn is_utf8(bytes: &[u8]) -> bool
    ensures { result ≡ is_utf8 bytes.now }
{
    match std::str::from_utf8(bytes) {
        Ok(_) => true,
        Err(_) => false,
    }
}

/// The first byte that is not UTF-8.
fn broken_place(number: u32, bytes: &[u8]) -> Place {
    let start = match std::str::from_utf8(bytes) {
        Ok(_) => 0,
        Err(error) => error.valid_up_to(),
    };
    Place {
        file: number,
        start: short(start),
    }
}

/// Where a file is not UTF-8.
fn broken_text(files: &[Vec<u8>]) -> Option<Place>
    ensures { is_some result ≡ not (list_all is_utf8 (map (λ f. f.items) files.now)) }
{
    for (number, file) in files.iter().enumerate() {
        if !is_utf8(file) {
            return Some(broken_place(short(number), file));
        }
    }
    None
}

#[tactic(auto, unfolding(crate::specs::Walk::judged))]
fn judge<'s>(alloc: Global, reader: Reader<'s>) -> Result<Vec<Token<'s>>, Stop>
    ensures read { IsRead result (judged (reading_of reader.entry)) }
    ensures tokens { IfOk result (λ v. v ≡ reader.entry.tokens) }
{
    if let Some(fault) = reader.misdirected {
        return Err(Stop::Refused(LexKind::BadDirective, fault));
    }
    if let Some(fault) = reader.left_out {
        return Err(Stop::Refused(LexKind::Unsupported, fault));
    }
    if let Some(place) = too_deep(alloc, &reader.tokens)? {
        return Err(Stop::Refused(LexKind::TooDeep, Fault::plain(place)));
    }
    Ok(reader.tokens)
}

#[tactic(auto, unfolding(crate::specs::Walk::walked))]
fn read<'s>(alloc: Global, files: &'s [Vec<u8>]) -> Result<Vec<Token<'s>>, Stop>
    ensures read { IsRead result (walked (map (λ f. f.items) files.now)) }
    ensures slices { AreShort (map (λ f. f.items) files.now) → IfOk result (λ v. All (IsSlice (map (λ f. f.items) files.now)) v.items) }
    ensures places { AreShort (map (λ f. f.items) files.now) → IfOk result (λ v. map spot_of v.items ≡ walked_spots (map (λ f. f.items) files.now)) }
{
    if let Some(place) = broken_text(files) {
        return Err(Stop::Refused(LexKind::NotText, Fault::plain(place)));
    }
    let mut reader = Reader::new(alloc);
    reader.read_files(files)?;
    judge(alloc, reader)
}

/// The line and the column behind some bytes of a file, both from 1.
fn line_and_column(bytes: &[u8]) -> (usize, usize)
    ensures { (result.0, result.1) ≡ position_from 1 1 bytes.now }
{
    let mut line: usize = 1;
    let mut column: usize = 1;
    for byte in bytes {
        if *byte == b'\n' {
            line += 1;
            column = 1;
        } else {
            column += 1;
        }
    }
    (line, column)
}

/// The bytes of a file, where there is one of that number.
fn bytes_at(files: &[Vec<u8>], number: u32) -> &[u8]
    ensures { result.now ≡ bytes_at (map (λ f. f.items) files.now) number }
{
    match files.get(number as usize) {
        Some(file) => file,
        None => b"".as_slice(),
    }
}

/// As `line 3 column 7`.
fn position_text(alloc: Global, line: usize, column: usize) -> Result<String, AllocError>
    ensures { IfOk result (λ s. string_bytes s ≡ position_text (line, column)) }
{
    format!(in alloc; "line {line} column {column}")
}

/// Adds the line and the column of a place.
fn add_position(
    alloc: Global,
    files: &[Vec<u8>],
    place: Place,
    text: &mut Vec<u8>,
) -> Result<(), AllocError>
    ensures { IfOk result (λ _. text.new.items ≡ text.old.items ++ position_text (position_at (map (λ f. f.items) files.now) place)) }
{
    let bytes = bytes_at(files, place.file);
    let (line, column) = line_and_column(first_bytes(bytes, place.start as usize));
    let position = position_text(alloc, line, column)?;
    text.extend_from_slice(position.as_bytes())?;
    Ok(())
}

/// Adds the number of another file, from 1.
fn add_file(alloc: Global, file: u32, other: u32, text: &mut Vec<u8>) -> Result<(), AllocError>
    ensures { IfOk result (λ _. text.new.items ≡ text.old.items ++ file_text file other) }
{
    if file == other {
        return Ok(());
    }
    let number = u64::from(other) + 1;
    let told = format!(in alloc; "file {number} ")?;
    text.extend_from_slice(told.as_bytes())?;
    Ok(())
}

/// Adds where the macro is used in whose text a place of a file stands: at another place, or after it.
fn add_use(
    alloc: Global,
    files: &[Vec<u8>],
    file: u32,
    how: &[u8],
    used: Option<Place>,
    text: &mut Vec<u8>,
) -> Result<(), AllocError>
    ensures { IfOk result (λ _. text.new.items ≡ text.old.items ++ use_text (map (λ f. f.items) files.now) file how.now used) }
{
    let Some(place) = used else {
        return Ok(());
    };
    text.extend_from_slice(b", used ")?;
    text.extend_from_slice(how)?;
    add_file(alloc, file, place.file, text)?;
    add_position(alloc, files, place, text)?;
    Ok(())
}

/// The word at the front, at most 80 bytes of it.
fn word_in(text: &[u8]) -> &[u8]
    ensures { result.now ≡ word_in text.now }
{
    first_bytes(split_run(Run::Graphic, text).0, 80)
}

/// A digit of a number in hexadecimal.
fn hexadecimal_digit(digit: u8) -> u8
    requires { digit < 16 }
    ensures { result ≡ hexadecimal_digit digit }
{
    if digit < 10 { 48 + digit } else { 87 + digit }
}

/// Adds a byte, as `byte 0xfc`.
fn add_byte(byte: u8, text: &mut Vec<u8>) -> Result<(), AllocError>
    ensures { IfOk result (λ _. text.new.items ≡ text.old.items ++ byte_text byte) }
{
    let digits = [hexadecimal_digit(byte / 16), hexadecimal_digit(byte % 16)];
    text.extend_from_slice(b"byte 0x")?;
    text.extend_from_slice(&digits)?;
    Ok(())
}

/// Adds what stands at the front of a text: the word there, or the byte there if no word begins with it.
fn add_front(front: &[u8], text: &mut Vec<u8>) -> Result<(), AllocError>
    ensures { IfOk result (λ _. text.new.items ≡ text.old.items ++ front_text front.now) }
{
    let Some((byte, _)) = front.split_first() else {
        return Ok(());
    };
    if is_graphic(*byte) {
        text.extend_from_slice(word_in(front))?;
        return Ok(());
    }
    add_byte(*byte, text)
}

fn has_byte(byte: u8, bytes: &[u8]) -> bool
    ensures { result ≡ has_byte byte bytes.now }
{
    bytes.iter().any(|other| *other == byte)
}

/// What a note says of a file of carriage returns without a line feed.
fn returns_text(bytes: &[u8]) -> &'static [u8]
    ensures { result.now ≡ returns_text bytes.now }
{
    if has_byte(b'\r', bytes) && !has_byte(b'\n', bytes) {
        b"carriage returns alone: ".as_slice()
    } else {
        b"".as_slice()
    }
}

/// The note on a place, with where the macro is used in whose text it stands, and with a remark.
#[tactic(auto, unfolding(crate::specs::Notes::note_of))]
fn note(
    alloc: Global,
    files: &[Vec<u8>],
    place: Place,
    how: &[u8],
    used: Option<Place>,
    remark: &[u8],
) -> Result<Note, NoMemory>
    ensures text { IfOk result (λ n. n.text.items ≡ note_of (map (λ f. f.items) files.now) place how.now used remark.now) }
    ensures file { IfOk result (λ n. n.file ≡ place.file) }
{
    let bytes = bytes_at(files, place.file);
    let mut text = Vec::new(alloc);
    add_position(alloc, files, place, &mut text)?;
    add_use(alloc, files, place.file, how, used, &mut text)?;
    text.extend_from_slice(b": ")?;
    text.extend_from_slice(returns_text(bytes))?;
    text.extend_from_slice(remark)?;
    add_front(behind(bytes, place.start as usize), &mut text)?;
    Note::new(alloc, place.file, &text)
}

/// Where the last file ends.
fn end_of(files: &[Vec<u8>]) -> Place
    ensures { result ≡ end_of (map (λ f. f.items) files.now) }
{
    let file = short(files.len().saturating_sub(1));
    Place {
        file,
        start: short(bytes_at(files, file).len()),
    }
}

/// The place of a token, or the end of the last file.
fn place_or_end(files: &[Vec<u8>], token: Option<Token<'_>>) -> Place
    ensures { result ≡ place_or_end (map (λ f. f.items) files.now) token.entry }
{
    match token {
        Some(token) => place_of(token),
        None => end_of(files),
    }
}

/// The note where memory suffices.
fn if_made(note: Result<Note, NoMemory>) -> Option<Note>
    ensures text { (w : List ℕ) → IfOk note (λ n. n.text.items ≡ w) → IfSome result (λ n. n.text.items ≡ w) }
    ensures file { (f : ℕ) → IfOk note (λ n. n.file ≡ f) → IfSome result (λ n. n.file ≡ f) }
{
    match note {
        Ok(note) => Some(note),
        Err(_) => None,
    }
}

fn is_identifier(token: Token<'_>) -> bool
    ensures { result ≡ is_identifier token.entry }
{
    match token.kind {
        TokenKind::Word => !is_reserved_word(token.text.as_bytes()),
        _ => false,
    }
}

/// The token that so many tokens stand before.
fn token_at<'s>(tokens: &[Token<'s>], count: usize) -> Option<Token<'s>>
    ensures { result ≡ slice_get tokens.now count }
{
    tokens.get(count).copied()
}

/// The last of the first tokens, so many.
fn token_before<'s>(tokens: &[Token<'s>], count: usize) -> Option<Token<'s>>
    ensures { result ≡ token_before tokens.now count }
{
    if count == 0 {
        return None;
    }
    token_at(tokens, count - 1)
}

/// Adds a token's text and some bytes, where it is an identifier.
fn add_identifier(
    token: Option<Token<'_>>,
    end: &[u8],
    text: &mut Vec<u8>,
) -> Result<(), AllocError>
    ensures { IfOk result (λ _. text.new.items ≡ text.old.items ++ identifier_text token.entry end.now) }
{
    let Some(token) = token else {
        return Ok(());
    };
    if is_identifier(token) {
        text.extend_from_slice(token.text.as_bytes())?;
        text.extend_from_slice(end)?;
    }
    Ok(())
}

/// As `after logic: `: the identifiers, one or two, behind which the token at a place among the tokens stands.
fn after_text(alloc: Global, tokens: &[Token<'_>], count: usize) -> Result<Vec<u8>, AllocError>
    ensures { IfOk result (λ v. v.items ≡ after_text tokens.now count) }
{
    let mut text = Vec::new(alloc);
    let Some(token) = token_before(tokens, count) else {
        return Ok(text);
    };
    if !is_identifier(token) {
        return Ok(text);
    }
    text.extend_from_slice(b"after ")?;
    add_identifier(
        token_before(tokens, count.saturating_sub(1)),
        b" ",
        &mut text,
    )?;
    text.extend_from_slice(token.text.as_bytes())?;
    text.extend_from_slice(b": ")?;
    Ok(text)
}

/// Whether one place stands before another in the files.
fn is_before(one: Place, other: Place) -> bool
    ensures { result ≡ is_before one other }
{
    one.file < other.file || (one.file == other.file && one.start < other.start)
}

fn further(far: Option<Place>, place: Place) -> Place
    ensures { result ≡ further far place }
{
    let Some(other) = far else {
        return place;
    };
    if is_before(other, place) {
        place
    } else {
        other
    }
}

/// The furthest place in the files at which one of some tokens stands.
fn furthest(tokens: &[Token<'_>]) -> Option<Place>
    ensures { result ≡ furthest tokens.now }
{
    let mut far = None;
    for token in tokens {
        far = Some(further(far, place_of(*token)));
    }
    far
}

fn use_behind(far: Option<Place>, token: Option<Token<'_>>) -> Option<Place>
    ensures { result ≡ use_behind far token.entry }
{
    let Some(other) = far else {
        return None;
    };
    let Some(token) = token else {
        return None;
    };
    if is_before(place_of(token), other) {
        Some(other)
    } else {
        None
    }
}

/// The first tokens, at most so many.
fn first_tokens<'t, 's>(tokens: &'t [Token<'s>], count: usize) -> &'t [Token<'s>]
    ensures { result.now ≡ take count tokens.now }
{
    if count <= tokens.len() {
        &tokens[..count]
    } else {
        tokens
    }
}

/// After which place the macro is used in whose text the token stands that so many tokens stand before.
fn use_after(tokens: &[Token<'_>], count: usize) -> Option<Place>
    ensures { result ≡ use_after tokens.now count }
{
    use_behind(
        furthest(first_tokens(tokens, count)),
        token_at(tokens, count),
    )
}

/// A note that leads to the token that so many tokens stand before, or to the end of the last file where there is none: `line 3 column 7: `
/// and the word there, and beside it the number of the file. It names the identifiers behind which the token stands, as
/// `line 3 column 9: after logic: [7:0]`, and after which place a macro is used, where the token is seen to be of its text. None where
/// memory runs out.
pub fn note_behind(
    alloc: Global,
    files: &[Vec<u8>],
    tokens: &[Token<'_>],
    count: usize,
) -> Option<Note>
    ensures text { IfSome result (λ n. n.text.items ≡ note_behind (map (λ f. f.items) files.now) tokens.now count) }
    ensures file { IfSome result (λ n. n.file ≡ file_of_token (map (λ f. f.items) files.now) (slice_get tokens.now count)) }
{
    let Ok(after) = after_text(alloc, tokens, count) else {
        return None;
    };
    let place = place_or_end(files, token_at(tokens, count));
    let used = use_after(tokens, count);
    if_made(note(alloc, files, place, b"after ".as_slice(), used, &after))
}

fn refusal(alloc: Global, files: &[Vec<u8>], kind: LexKind, fault: Fault) -> LexStop
    ensures kind { IsOfKind kind result }
    ensures note { IsNoted (map (λ f. f.items) files.now) fault result }
{
    match note(
        alloc,
        files,
        fault.place,
        b"at ".as_slice(),
        fault.used,
        remark_text(fault.remark),
    ) {
        Ok(note) => LexStop::Refused(LexRefusal { kind, note }),
        Err(_) => LexStop::NoMemory,
    }
}

/// The tokens of the files in order (1364-2005, clauses 3 and 19): macros carry over from file to file. Of several broken rules the
/// first in the order of the kinds is answered, wherever it stands. Each token's text is a slice of its file, the text of what the
/// token is, and stands where the token is read, in the text of a macro's definition too. (Both for at most 2^32 - 1 files of at most
/// 2^32 - 1 bytes.) A refusal's note leads to a place by its line and column, and shows what stands there.
pub fn tokens<'s>(alloc: Global, files: &'s [Vec<u8>]) -> Result<Vec<Token<'s>>, LexStop>
    ensures answer { IsAnswer result (tokens_in (map (λ f. f.items) files.now)) }
    ensures slices { AreShort (map (λ f. f.items) files.now) → IfOk result (λ v. All (IsSlice (map (λ f. f.items) files.now)) v.items) }
    ensures places { AreShort (map (λ f. f.items) files.now) → IfOk result (λ v. map spot_of v.items ≡ spots_in (map (λ f. f.items) files.now)) }
    ensures note { IfErr result (λ e. IsNotedSomewhere (map (λ f. f.items) files.now) e) }
{
    match read(alloc, files) {
        Ok(tokens) => Ok(tokens),
        Err(Stop::Memory) => Err(LexStop::NoMemory),
        Err(Stop::Refused(kind, fault)) => Err(refusal(alloc, files, kind, fault)),
    }
}
