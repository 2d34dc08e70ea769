//! Reading piece by piece.

ghost use Rattle.std.specs.Prelude.{◌≡◌, ◌==◌, ◌||◌, ◌+◌, ◌++◌, ◌∷◌, [], nat_le, cond, ℕ, List, Some, None, option_map, length, IfOk, IfSome, IsTrue};
ghost use Rattle.std.specs.List.{list_all};
ghost use Rattle.wb_values.specs.Value.{same_name};
ghost use Rattle.verilog_text.specs.Text.{most_used, is_zero, is_based, is_defined};
ghost use Rattle.v_lex.specs.Walk.{Reading, Outcome, with_bad_directive, with_left_out, with_macro, with_token, begun, continued, ended, with_text_of, with_piece, front_at, text_from, macro_read};
ghost use Rattle.v_token.specs.View.{token_of_kind, token_of};
ghost use Rattle.v_lex.specs.Quotes.{are_alone};
ghost use Rattle.v_lex.specs.View.{piece_of, front_of, at_front, IsPart};
ghost use Rattle.v_lex.specs.Reading.{reading_of, IsOutcome, Leaves, IsTaken, IsFront, front_in, without_first};
ghost use Rattle.v_lex.specs.Notes.{stray_place};
ghost use Rattle.v_lex.specs.Faults.{remarked, openers_of, first_kept, last_token, IsStrayAt, IsFaultAt, IsTokenFault, use_in_file, use_around, too_many_levels};
ghost use Rattle.v_lex.specs.Places.{AreShort};
ghost use Rattle.v_lex.specs.Sites.{Sites, piece_sites, sites_from, macro_sites};
ghost use Rattle.v_lex.specs.Spots.{Site};
ghost use Rattle.v_lex.specs.declared.fault.Remark.TheVariants.{NoEnd, ManyBytes};
ghost use Rattle.v_lex.specs.Sited.{site_of, sites_of, IsSited, LeavesSites};
ghost use Rattle.v_lex.specs.Placed.{span_under, IsSpanOf, IsReaderPlaced, Keeps, IsPieceAt, IsUse, IsTakenAt, IsFrontAt};

use crate::conditional::{enter, first_branch, innermost, leave, leaves_out, next_branch};
use crate::fault::{Fault, Remark, last_token, number_place, stray_place, use_in_file};
use crate::front::{left_out_front, read_front};
use crate::piece::Piece;
use crate::place::{Place, moved, moved_back};
use crate::state::{Conditional, Reader, Span};
use crate::stop::{LexKind, Stop};
use crate::table::{macro_text, set_macro};
use v_token::token::{Token, TokenKind};

/// The most uses of macros in one another.
pub(crate) const MOST_LEVELS: u32 = 64;

/// The most tokens of all files.
const MOST_TOKENS: usize = 4_194_304;

/// The most bytes of macros' texts, counted at each use.
const MOST_USED: usize = 67_108_864;

fn is_zero_text(text: &[u8]) -> bool
    ensures { result ≡ list_all (λ b. b == 48 || b == 95) text.now }
{
    text.iter().all(|byte| *byte == b'0' || *byte == b'_')
}

fn is_zero(kind: TokenKind, text: &[u8]) -> bool
    ensures { result ≡ is_zero (token_of_kind kind text.now) }
{
    match kind {
        TokenKind::Decimal => is_zero_text(text),
        _ => false,
    }
}

fn is_based(kind: TokenKind, text: &[u8]) -> bool
    ensures { result ≡ is_based (token_of_kind kind text.now) }
{
    match kind {
        TokenKind::Based => true,
        _ => false,
    }
}

/// The bytes of uses with those of one more, up to the most that there may be.
#[tactic(auto, unfolding(verilog_text::specs::Text::most_used))]
fn total_used(used: usize, more: usize) -> Option<usize>
    ensures { result ≡ cond (nat_le (used + more) most_used) (Some (used + more)) None }
{
    let total = used.saturating_add(more);
    if total <= MOST_USED {
        Some(total)
    } else {
        None
    }
}

/// A text at its place, of whose quotes nothing is known.
pub(crate) fn whole_span(text: &[u8], place: Place) -> Span<'_>
    ensures text { result.text.now ≡ text.now }
    ensures place { result.place ≡ place }
{
    Span {
        text,
        place,
        alone: text.len(),
    }
}

impl<'s> Reader<'s> {
    /// Notes a wrong directive.
    pub(crate) fn misdirect(&mut self, fault: Fault)
        ensures reading { reading_of self.new ≡ with_bad_directive (reading_of self.old) }
        ensures kept { Keeps self.old self.new }
        ensures noted { self.new.misdirected ≡ Some (first_kept self.old.misdirected fault) }
        ensures conditionals { self.new.conditionals ≡ self.old.conditionals }
    {
        if self.misdirected.is_none() {
            self.misdirected = Some(fault);
        }
    }

    /// Notes what the subset leaves out.
    fn leave_out(&mut self, fault: Fault)
        ensures reading { reading_of self.new ≡ with_left_out (reading_of self.old) }
        ensures kept { Keeps self.old self.new }
        ensures noted { self.new.left_out ≡ Some (first_kept self.old.left_out fault) }
    {
        self.is_behind_zero = false;
        if self.left_out.is_none() {
            self.left_out = Some(fault);
        }
    }

    #[tactic(auto, unfolding(crate::specs::Walk::with_token, verilog_text::specs::Text::most_tokens))]
    fn push(&mut self, token: Token<'s>, here: Fault) -> Result<(), Stop>
        ensures outcome { IsOutcome result (reading_of self.new) (with_token (token_of token.entry) (reading_of self.old)) }
        ensures tokens { IfOk result (λ _. self.new.tokens.items ≡ self.old.tokens.items ++ token.entry ∷ []) }
        ensures macros { self.new.macros ≡ self.old.macros }
        ensures fault { IsTokenFault result (last_token self.old.tokens.items) here }
    {
        if self.is_behind_zero && is_based(token.kind, token.text.as_bytes()) {
            let place = number_place(last_token(&self.tokens), here.place);
            return Err(Stop::Refused(LexKind::BadToken, here.moved_to(place)));
        }
        if self.tokens.len() >= MOST_TOKENS {
            return Err(Stop::Refused(LexKind::BadDirective, here.with(Remark::ManyTokens)));
        }
        self.is_behind_zero = is_zero(token.kind, token.text.as_bytes());
        self.tokens.push(token)?;
        Ok(())
    }

    fn define(&mut self, name: &'s [u8], text: Option<Span<'s>>) -> Result<(), Stop>
        ensures reading { Leaves result (reading_of self.new) (with_macro name.now (option_map (λ s. s.text.now) text.entry) (reading_of self.old)) }
        ensures tokens { self.new.tokens ≡ self.old.tokens }
        ensures spans { IfOk result (λ _. (q : List ℕ) → span_under self.new.macros q ≡ cond (same_name name.now q) text.entry (span_under self.old.macros q)) }
    {
        set_macro(&mut self.macros, name, text)?;
        Ok(())
    }

    fn is_defined(&self, name: &'s [u8]) -> bool
        ensures { result ≡ is_defined ((reading_of self.now).macros name.now) }
    {
        match macro_text(&self.macros, name) {
            Some(_) => true,
            None => false,
        }
    }

    #[tactic(auto, unfolding(crate::specs::Walk::begun))]
    fn begin(&mut self, holds: bool, here: Fault) -> Result<(), Stop>
        ensures reading { Leaves result (reading_of self.new) (begun holds (reading_of self.old)) }
        ensures kept { Keeps self.old self.new }
        ensures openers { IfOk result (λ _. openers_of self.new.conditionals.items ≡ remarked NoEnd here ∷ openers_of self.old.conditionals.items) }
    {
        let branch = first_branch(leaves_out(&self.conditionals), holds);
        enter(
            &mut self.conditionals,
            Conditional {
                branch,
                has_else: false,
                opener: here.with(Remark::NoEnd),
            },
        )?;
        Ok(())
    }

    #[tactic(auto, unfolding(crate::specs::Walk::continued))]
    fn go_on(&mut self, is_last: bool, holds: bool, here: Fault) -> Result<(), Stop>
        ensures reading { Leaves result (reading_of self.new) (continued is_last holds (reading_of self.old)) }
        ensures kept { Keeps self.old self.new }
        ensures openers { IfOk result (λ _. openers_of self.new.conditionals.items ≡ openers_of self.old.conditionals.items) }
    {
        let Some(conditional) = innermost(&self.conditionals) else {
            self.misdirect(here);
            return Ok(());
        };
        if conditional.has_else {
            self.misdirect(here);
            return Ok(());
        }
        leave(&mut self.conditionals);
        let branch = next_branch(conditional.branch, holds);
        enter(
            &mut self.conditionals,
            Conditional {
                branch,
                has_else: is_last,
                opener: conditional.opener,
            },
        )?;
        Ok(())
    }

    #[tactic(auto, unfolding(crate::specs::Walk::ended))]
    fn end(&mut self, here: Fault)
        ensures reading { reading_of self.new ≡ ended (reading_of self.old) }
        ensures kept { Keeps self.old self.new }
        ensures openers { openers_of self.new.conditionals.items ≡ without_first (openers_of self.old.conditionals.items) }
    {
        match innermost(&self.conditionals) {
            Some(_) => leave(&mut self.conditionals),
            None => self.misdirect(here),
        }
    }

    fn count_use(&mut self, text: Span<'s>, here: Fault) -> Result<Option<Span<'s>>, Stop>
        ensures taken { (read : List ℕ → Reading → Outcome) → IsTaken read result (reading_of self.new) (with_text_of read (Some text.entry.text.now) (reading_of self.old)) }
        ensures span { IsUse result (Some text.entry) }
        ensures kept { Keeps self.old self.new }
        ensures fault { IsFaultAt result (remarked ManyBytes here) }
        ensures place { IfOk result (λ _. self.new.last_use ≡ Some (use_in_file here)) }
    {
        match total_used(self.used, text.text.len()) {
            Some(used) => {
                self.used = used;
                self.last_use = Some(use_in_file(here));
                Ok(Some(text))
            }
            None => Err(Stop::Refused(LexKind::BadDirective, here.with(Remark::ManyBytes))),
        }
    }

    fn undefined(&mut self, here: Fault) -> Result<Option<Span<'s>>, Stop>
        ensures taken { (read : List ℕ → Reading → Outcome) → IsTaken read result (reading_of self.new) (with_text_of read None (reading_of self.old)) }
        ensures span { IsUse result None }
        ensures kept { Keeps self.old self.new }
    {
        self.misdirect(here);
        Ok(None)
    }

    fn use_macro(&mut self, name: &'s [u8], here: Fault) -> Result<Option<Span<'s>>, Stop>
        ensures taken { (read : List ℕ → Reading → Outcome) → IsTaken read result (reading_of self.new) (with_text_of read ((reading_of self.old).macros name.now) (reading_of self.old)) }
        ensures span { IsUse result (span_under self.old.macros name.now) }
        ensures kept { Keeps self.old self.new }
    {
        match macro_text(&self.macros, name) {
            Some(text) => self.count_use(text, here),
            None => self.undefined(here),
        }
    }

    /// Takes a piece that stands at a place, in the text of a macro that is used in a file there, if it is in one; hands out the text of a
    /// macro that is used.
    #[tactic(auto, unfolding(crate::specs::Walk::with_piece))]
    fn take(
        &mut self,
        piece: Piece<'s>,
        here: Place,
        behind: Place,
        used: Option<Place>,
    ) -> Result<Option<Span<'s>>, Stop>
        ensures taken { (read : List ℕ → Reading → Outcome) → IsTaken read result (reading_of self.new) (with_piece read (piece_of piece.entry) (reading_of self.old)) }
        ensures places { (files : List (List ℕ)) → AreShort files → IsPieceAt files piece.entry here behind → IsReaderPlaced files self.old → IsTakenAt result files self.new }
        ensures sites { (add : Site → List ℕ → Reading → Sites → Sites) (count : ℕ) → IsSited piece.entry here behind count → LeavesSites add result self.new (piece_sites add (piece_of piece.entry) (site_of here) count (reading_of self.old) (sites_of self.old)) }
    {
        let at = Fault {
            place: here,
            used,
            remark: Remark::Nothing,
        };
        match piece {
            Piece::Nothing => Ok(None),
            Piece::Token(kind, text) => {
                let token = Token {
                    kind,
                    text,
                    file: here.file,
                    start: here.start,
                };
                self.push(token, at)?;
                Ok(None)
            }
            Piece::LeftOut => {
                self.leave_out(at);
                Ok(None)
            }
            Piece::Misdirected => {
                self.misdirect(at);
                Ok(None)
            }
            Piece::Define(name, text) => {
                let place = moved_back(behind, text);
                self.define(name, Some(whole_span(text, place)))?;
                Ok(None)
            }
            Piece::Undefine(name) => {
                self.define(name, None)?;
                Ok(None)
            }
            Piece::IfDefined(is_wanted, name) => {
                let holds = self.is_defined(name) == is_wanted;
                self.begin(holds, at)?;
                Ok(None)
            }
            Piece::ElseIf(name) => {
                let holds = self.is_defined(name);
                self.go_on(false, holds, at)?;
                Ok(None)
            }
            Piece::Otherwise => {
                self.go_on(true, true, at)?;
                Ok(None)
            }
            Piece::EndIf => {
                self.end(at);
                Ok(None)
            }
            Piece::Use(name) => self.use_macro(name, at),
        }
    }

    #[tactic(auto, unfolding(crate::specs::Walk::front_at))]
    fn pieces_front(
        &self,
        is_macro: bool,
        text: &'s [u8],
        alone: usize,
    ) -> Option<(Piece<'s>, &'s [u8], usize)>
        requires { IsTrue (are_alone alone text.now) }
        ensures front { option_map (λ f. front_of (f.0, f.1)) result ≡ at_front (front_at is_macro (reading_of self.now)) text.now }
        ensures part { IfSome result (λ f. IsPart f.0 text.now f.1.now) }
        ensures alone { IfSome result (λ f. IsTrue (are_alone f.2 f.1.now)) }
    {
        if leaves_out(&self.conditionals) {
            return left_out_front(text, alone);
        }
        match read_front(is_macro, text) {
            Some((piece, rest)) => Some((piece, rest, alone)),
            None => None,
        }
    }

    /// Where a text begins no token.
    fn stray(&self, is_macro: bool, text: Span<'s>) -> Fault
        ensures { result.place ≡ stray_place (last_token self.now.tokens.items) text.entry.text.now text.entry.place }
    {
        let used = if is_macro { self.last_use } else { None };
        Fault {
            place: stray_place(last_token(&self.tokens), text.text, text.place),
            used,
            remark: Remark::Nothing,
        }
    }

    fn front(&self, is_macro: bool, text: Span<'s>) -> Result<Option<(Piece<'s>, Span<'s>)>, Stop>
        ensures front { IsFront result (front_in is_macro (reading_of self.now) text.entry.text.now) }
        ensures part { IsFrontAt result text.entry }
        ensures fault { IsStrayAt result (stray_place (last_token self.now.tokens.items) text.entry.text.now text.entry.place) }
    {
        if text.text.is_empty() {
            return Ok(None);
        }
        match self.pieces_front(is_macro, text.text, text.alone) {
            Some((piece, rest, alone)) => {
                let place = moved(text.place, text.text, rest);
                Ok(Some((
                    piece,
                    Span {
                        text: rest,
                        place,
                        alone,
                    },
                )))
            }
            None => Err(Stop::Refused(LexKind::BadToken, self.stray(is_macro, text))),
        }
    }

    /// Where the macro is used in a file whose text is read with so many levels left for uses.
    fn use_around(&self, levels: u32) -> Option<Place>
        ensures { result ≡ use_around levels self.now.last_use }
    {
        if levels < MOST_LEVELS {
            self.last_use
        } else {
            None
        }
    }

    /// Notes the use of a macro in 64 others.
    fn pass_levels(&mut self, place: Place)
        ensures reading { reading_of self.new ≡ with_bad_directive (reading_of self.old) }
        ensures kept { Keeps self.old self.new }
        ensures noted { self.new.misdirected ≡ Some (first_kept self.old.misdirected (too_many_levels place self.old.last_use)) }
    {
        self.misdirect(Fault {
            place,
            used: self.last_use,
            remark: Remark::ManyLevels,
        });
    }

    #[cycle(read)]
    fn taken(
        &mut self,
        levels: u32,
        piece: Piece<'s>,
        here: Place,
        behind: Place,
    ) -> Result<(), Stop>
        ensures outcome { IsOutcome result (reading_of self.new) (with_piece (macro_read levels) (piece_of piece.entry) (reading_of self.old)) }
        ensures places { (files : List (List ℕ)) → AreShort files → IsPieceAt files piece.entry here behind → IsReaderPlaced files self.old → IfOk result (λ _. IsReaderPlaced files self.new) }
        ensures sites { (files : List (List ℕ)) (count : ℕ) → AreShort files → IsPieceAt files piece.entry here behind → IsReaderPlaced files self.old → IsSited piece.entry here behind count → IfOk result (λ _. piece_sites (macro_sites levels) (piece_of piece.entry) (site_of here) count (reading_of self.old) (sites_of self.old) ≡ sites_of self.new) }
    {
        let used = self.use_around(levels);
        match self.take(piece, here, behind, used)? {
            Some(text) => self.read_macro(levels, text, here),
            None => Ok(()),
        }
    }

    /// Reads the text of a macro, with so many levels left for uses.
    #[cycle(read)]
    fn read_macro(&mut self, levels: u32, text: Span<'s>, place: Place) -> Result<(), Stop>
        ensures outcome { IsOutcome result (reading_of self.new) (macro_read levels text.entry.text.now (reading_of self.old)) }
        ensures places { (files : List (List ℕ)) → AreShort files → IsSpanOf files text.entry → IsReaderPlaced files self.old → IfOk result (λ _. IsReaderPlaced files self.new) }
        ensures sites { (files : List (List ℕ)) → AreShort files → IsSpanOf files text.entry → IsReaderPlaced files self.old → IfOk result (λ _. macro_sites levels (site_of text.entry.place) text.entry.text.now (reading_of self.old) (sites_of self.old) ≡ sites_of self.new) }
    {
        if levels == 0 {
            self.pass_levels(place);
            return Ok(());
        }
        self.read_text(levels - 1, true, text)
    }

    /// Reads a text, with so many levels left for uses of macros.
    #[cycle(read)]
    pub(crate) fn read_text(
        &mut self,
        levels: u32,
        is_macro: bool,
        text: Span<'s>,
    ) -> Result<(), Stop>
        ensures outcome { IsOutcome result (reading_of self.new) (text_from is_macro (macro_read levels) 0 text.entry.text.now (reading_of self.old)) }
        ensures places { (files : List (List ℕ)) → AreShort files → IsSpanOf files text.entry → IsReaderPlaced files self.old → IfOk result (λ _. IsReaderPlaced files self.new) }
        ensures sites { (files : List (List ℕ)) → AreShort files → IsSpanOf files text.entry → IsReaderPlaced files self.old → IfOk result (λ _. sites_from is_macro (macro_read levels) (macro_sites levels) 0 (site_of text.entry.place) text.entry.text.now (reading_of self.old) (sites_of self.old) ≡ sites_of self.new) }
    {
        let mut rest = text;
        loop {
            let Some((piece, behind)) = self.front(is_macro, rest)? else {
                return Ok(());
            };
            self.taken(levels, piece, rest.place, behind.place)?;
            rest = behind;
        }
    }
}
