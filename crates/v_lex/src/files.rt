//! Reading files one after the other.

ghost use Rattle.std.specs.Prelude.{◌≡◌, ◌-◌, ℕ, List, Some, map, min, length, take, slice_get, Ok, IfOk};
ghost use Rattle.verilog_text.specs.Text.{without_byte_order_mark};
ghost use Rattle.v_lex.specs.Walk.{first_reading, opened, closed, file_read, files_read, text_from, macro_read};
ghost use Rattle.v_lex.specs.Reading.{reading_of, IsOutcome};
ghost use Rattle.v_lex.specs.Faults.{openers_of, with_open};
ghost use Rattle.v_lex.specs.Places.{AreShort};
ghost use Rattle.v_lex.specs.Sites.{first_sites, file_sites, files_sites};
ghost use Rattle.v_lex.specs.Sited.{sites_of};
ghost use Rattle.v_lex.specs.Placed.{Keeps, IsReaderPlaced};

use crate::conditional::innermost;
use crate::place::{Place, short};
use crate::reading::{MOST_LEVELS, whole_span};
use crate::state::{Reader, Span};
use crate::stop::Stop;
use std::alloc::Global;
use std::collections::BTreeMap;

#[tactic(auto, unfolding(verilog_text::specs::Text::without_byte_order_mark))]
fn without_byte_order_mark(bytes: &[u8]) -> &[u8]
    ensures { result.now ≡ without_byte_order_mark bytes.now }
{
    match bytes {
        [239, 187, 191, ..] => &bytes[3..],
        _ => bytes,
    }
}

/// The text of a file without the byte order mark that may stand at its front.
fn file_span(number: u32, bytes: &[u8]) -> Span<'_>
    ensures text { result.text.now ≡ without_byte_order_mark bytes.now }
    ensures file { result.place.file ≡ number }
    ensures start { result.place.start ≡ min (length bytes.now - length result.text.now) 4294967295 }
{
    let text = without_byte_order_mark(bytes);
    let place = Place {
        file: number,
        start: short(bytes.len().saturating_sub(text.len())),
    };
    whole_span(text, place)
}

impl<'s> Reader<'s> {
    pub(crate) fn new(alloc: Global) -> Reader<'s>
        ensures reading { reading_of result ≡ first_reading }
        ensures places { (files : List (List ℕ)) → IsReaderPlaced files result }
        ensures sites { sites_of result ≡ first_sites }
    {
        Reader {
            macros: BTreeMap::new(alloc),
            conditionals: Vec::new(alloc),
            tokens: Vec::new(alloc),
            is_behind_zero: false,
            used: 0,
            misdirected: None,
            left_out: None,
            last_use: None,
        }
    }

    #[tactic(auto, unfolding(crate::specs::Walk::opened))]
    fn begin_file(&mut self)
        ensures reading { reading_of self.new ≡ opened (reading_of self.old) }
        ensures kept { Keeps self.old self.new }
    {
        self.conditionals.clear();
    }

    #[tactic(auto, unfolding(crate::specs::Walk::closed))]
    fn end_file(&mut self)
        ensures reading { reading_of self.new ≡ closed (reading_of self.old) }
        ensures kept { Keeps self.old self.new }
        ensures noted { self.new.misdirected ≡ with_open self.old.misdirected (openers_of self.old.conditionals.items) }
    {
        if let Some(conditional) = innermost(&self.conditionals) {
            self.misdirect(conditional.opener);
        }
    }

    #[tactic(auto, unfolding(crate::specs::Walk::file_read))]
    fn read_file(&mut self, number: u32, bytes: &'s [u8]) -> Result<(), Stop>
        ensures outcome { IsOutcome result (reading_of self.new) (file_read bytes.now (reading_of self.old)) }
        ensures places { (files : List (List ℕ)) → AreShort files → slice_get files number ≡ Some bytes.now → IsReaderPlaced files self.old → IfOk result (λ _. IsReaderPlaced files self.new) }
        ensures sites { (files : List (List ℕ)) → AreShort files → slice_get files number ≡ Some bytes.now → IsReaderPlaced files self.old → IfOk result (λ _. file_sites number bytes.now (reading_of self.old) (sites_of self.old) ≡ sites_of self.new) }
    {
        self.begin_file();
        self.read_text(MOST_LEVELS, false, file_span(number, bytes))?;
        self.end_file();
        Ok(())
    }

    #[tactic(auto, unfolding(crate::specs::Walk::files_read))]
    pub(crate) fn read_files(&mut self, files: &'s [Vec<u8>]) -> Result<(), Stop>
        ensures outcome { IsOutcome result (reading_of self.new) (files_read (map (λ f. f.items) files.now) (reading_of self.old)) }
        ensures places { AreShort (map (λ f. f.items) files.now) → IsReaderPlaced (map (λ f. f.items) files.now) self.old → IfOk result (λ _. IsReaderPlaced (map (λ f. f.items) files.now) self.new) }
        ensures sites { AreShort (map (λ f. f.items) files.now) → IsReaderPlaced (map (λ f. f.items) files.now) self.old → IfOk result (λ _. files_sites 0 (map (λ f. f.items) files.now) (reading_of self.old) (sites_of self.old) ≡ sites_of self.new) }
    {
        for (number, file) in files.iter().enumerate() {
            self.read_file(short(number), file)?;
        }
        Ok(())
    }
}
