//! Settings of words to values.

ghost use Rattle.std.specs.Prelude.{◌≡◌, ℕ, slice_index, ◌<◌, ◌≤◌, ◌^◌, ◌-◌, ◌*◌, ◌+◌, Option, Some, None, option_map, IfOk, IfSome, map, length, IsTrue};
ghost use Rattle.scripts.specs.Script.{at_last, before_bracket, word_at_address, word_named, fitting, set_of, set_named, set_in, sets_in, all_sets, words_of, settable_named, are_distinct_sets};
ghost use Rattle.ila_sim.specs.Cuts.{below, cut_at};
ghost use Rattle.ila_sim.specs.Kinds.{width_of, addresses_of, fits_of};
ghost use Rattle.ila_sim.specs.Names.{settable_of, fits_under};
ghost use Rattle.ila_sim.specs.Reading.{IsReading};
ghost use Rattle.ila_sim.specs.Sets.{is_word_of, suits, is_right, are_right, set_called, set_at, key_of, are_distinct_numbers};

use crate::cuts::{last_place, next_word};
use crate::index::{Index, place_of};
use crate::names::{Kind, Settable};
use crate::numbers::number_in;
use crate::set::Set;
use crate::stop::Stop;
use std::alloc::{AllocError, Global};
use std::collections::BTreeSet;
use wb_bits::mask;

/// Whether a value fits a word of this kind.
fn fits(kind: Kind, value: u128) -> bool
    requires { width_of kind ≤ 128 }
    ensures { (word : ℕ) → result ≡ fits_of kind word value }
{
    match kind {
        Kind::Truth => value < 2,
        Kind::Word(width) => value <= mask(width),
        Kind::Memory(_, _, width) => value <= mask(width),
    }
}

/// The bits that a word may have.
fn mask_at(masks: &[u128], word: u64) -> u128
    ensures { result ≡ slice_index masks.now word }
{
    masks.get(word as usize).copied().unwrap_or(0)
}

/// Whether a value fits a word of a name.
fn fits_word(settable: &Settable, word: u64, value: u128) -> bool
    ensures { result ≡ fits_under settable.now.masks (fits_of settable.now.kind) word value }
{
    match &settable.masks {
        None => fits(settable.kind, value),
        Some(masks) => fits(settable.kind, value) && value & mask_at(masks, word) == value,
    }
}

/// The number of the word at an address of a memory.
fn word_at_address(least: u64, count: u64, address: u128) -> Option<u64>
    ensures word { result ≡ word_at_address (least, count) address }
    ensures within { IfSome result (λ k. k < count) }
{
    let least = u128::from(least);
    if least <= address && address < least + u128::from(count) {
        Some((address - least) as u64)
    } else {
        None
    }
}

/// The number of the word that is named: by an address for a memory, by none for another name.
fn word_named(kind: Kind, address: Option<Option<u128>>) -> Option<u64>
    ensures word { result ≡ word_named (addresses_of kind) address }
    ensures within { IfSome result (λ k. IsTrue (is_word_of (addresses_of kind) k)) }
{
    match (kind, address) {
        (Kind::Memory(least, count, _), Some(Some(address))) => {
            word_at_address(least, count, address)
        }
        (Kind::Truth | Kind::Word(_), None) => Some(0),
        _ => None,
    }
}

/// The setting of a name at a place, where the word is there and the value fits.
fn fitting(
    settable: &Settable,
    place: usize,
    address: Option<Option<u128>>,
    value: Option<u128>,
) -> Option<Set>
    ensures set { option_map (set_called settable.now.name.items) result ≡ fitting (settable_of settable.now) (word_named (addresses_of settable.now.kind) address) value }
    ensures place { IfSome result (λ s. s.place ≡ place) }
    ensures right { IfSome result (λ s. IsTrue (suits (settable_of settable.now) s)) }
{
    let word = word_named(settable.kind, address)?;
    let value = value?;
    if !fits_word(settable, word, value) {
        return None;
    }
    Some(Set { place, word, value })
}

/// The number in `number]`, where it is below 2^128.
fn before_bracket(text: &[u8]) -> Option<u128>
    ensures { result ≡ below (2 ^ 128) (before_bracket (at_last 93 text.now)) }
{
    match last_place(text, b']') {
        Some(end) => {
            if end + 1 < text.len() {
                return None;
            }
            number_in(&text[..end])
        }
        None => None,
    }
}

/// A setting, by its name, the address that is written, and the value.
fn set_named<'a>(
    index: &Index<'a>,
    name: &'a [u8],
    address: Option<Option<u128>>,
    value: Option<u128>,
) -> Option<Set>
    ensures set { option_map (set_at (map settable_of index.now.settables.now)) result ≡ set_named (settable_named (map settable_of index.now.settables.now) name.now) address value }
    ensures right { IfSome result (λ s. IsTrue (is_right (map settable_of index.now.settables.now) s)) }
{
    match place_of(index, name) {
        Some(place) => fitting(&index.settables[place], place, address, value),
        None => None,
    }
}

/// One number for the place and the word.
pub(crate) fn key_of(set: &Set) -> u128
    ensures { result ≡ key_of set.now }
{
    set.place as u128 * 18446744073709551616 + u128::from(set.word)
}

/// Whether no two settings have one number.
fn are_distinct(alloc: Global, sets: &[Set]) -> Result<bool, AllocError>
    ensures { IfOk result (λ b. b ≡ are_distinct_numbers (map key_of sets.now)) }
{
    let mut seen = BTreeSet::new(alloc);
    for set in sets {
        if !seen.insert(key_of(set))? {
            return Ok(false);
        }
    }
    Ok(true)
}

/// What stands before `=`, set to a value: `name`, or `memory[address]`.
fn set_of<'a>(index: &Index<'a>, left: &'a [u8], value: Option<u128>) -> Option<Set>
    ensures set { option_map (set_at (map settable_of index.now.settables.now)) result ≡ set_of (map settable_of index.now.settables.now) left.now (at_last 91 left.now) value }
    ensures right { IfSome result (λ s. IsTrue (is_right (map settable_of index.now.settables.now) s)) }
{
    match last_place(left, b'[') {
        None => set_named(index, left, None, value),
        Some(open) => {
            let address = before_bracket(&left[open + 1..]);
            set_named(index, &left[..open], Some(address), value)
        }
    }
}

/// A word `name=value` or `memory[address]=value`.
pub(crate) fn set_in<'a>(index: &Index<'a>, text: &'a [u8]) -> Option<Set>
    ensures set { option_map (set_at (map settable_of index.now.settables.now)) result ≡ set_in (map settable_of index.now.settables.now) text.now }
    ensures right { IfSome result (λ s. IsTrue (is_right (map settable_of index.now.settables.now) s)) }
{
    match last_place(text, b'=') {
        None => None,
        Some(equals) => set_of(index, &text[..equals], number_in(&text[equals + 1..])),
    }
}

/// The settings of a line's words.
fn all_sets<'a>(alloc: Global, index: &Index<'a>, line: &'a [u8]) -> Result<Vec<Set>, Stop>
    ensures sets { IsReading (λ s. map (set_at (map settable_of index.now.settables.now)) s.items) result (all_sets (map settable_of index.now.settables.now) (words_of line.now)) }
    ensures right { IfOk result (λ s. IsTrue (are_right (map settable_of index.now.settables.now) s.items)) }
{
    let mut sets = Vec::new(alloc);
    let mut rest = line;
    while let Some((word, next)) = next_word(rest) {
        let set = set_in(index, word).ok_or(Stop::Refused)?;
        sets.push(set)?;
        rest = next;
    }
    Ok(sets)
}

/// The settings of a line's words, no word of a name set twice.
pub(crate) fn sets_in<'a>(
    alloc: Global,
    index: &Index<'a>,
    line: &'a [u8],
) -> Result<Vec<Set>, Stop>
    ensures sets { IsReading (λ s. map (set_at (map settable_of index.now.settables.now)) s.items) result (sets_in (map settable_of index.now.settables.now) (words_of line.now)) }
    ensures right { IfOk result (λ s. IsTrue (are_right (map settable_of index.now.settables.now) s.items)) }
{
    let sets = all_sets(alloc, index, line)?;
    if !are_distinct(alloc, &sets)? {
        return Err(Stop::Refused);
    }
    Ok(sets)
}
