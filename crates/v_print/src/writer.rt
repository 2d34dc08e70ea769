//! Text that grows token by token, with a blank wherever two tokens would run into one another.
ghost use Rattle.std.specs.Prelude.{◌≡◌, ◌++◌, [], ◌∷◌, true, cond, OnOk};
ghost use Rattle.std.specs.String.{string_bytes};
ghost use Rattle.std.specs.Fmt.{decimal as numeral};
ghost use Rattle.verilog_text.specs.Token.{word, system, decimal, based, mark as mark_token};
ghost use Rattle.v_token.specs.View.{mark_of};
ghost use Rattle.v_print.specs.declared.last.Last.TheVariants.{Blank};
ghost use Rattle.v_print.specs.Reads.{may_go_on};
ghost use Rattle.v_print.specs.Writes.{Writes};
ghost use Rattle.v_print.specs.Spelled.{opened, closed, parted};

use crate::byte::may_go_on;
use crate::last::Last;
use crate::mark::{class_of, text_of};
use itoa::Buffer;
use std::alloc::{AllocError, Global};
use v_token::token::Mark;

/// A text that is being written.
#[derive(Drop)]
pub struct Writer {
    pub text: String,
    pub last: Last,
}

impl Writer {
    /// No text.
    pub fn new(alloc: Global) -> Self
        ensures text { string_bytes result.text ≡ [] }
    {
        Writer {
            text: String::new(alloc),
            last: Last::Blank,
        }
    }

    /// The text.
    pub fn into_text(self) -> String
        ensures { result ≡ self.text }
    {
        let Writer { text, last: _ } = self;
        text
    }

    /// Bytes of a token, with what they leave for the next one.
    pub(crate) fn piece(&mut self, text: &str, last: Last) -> Result<(), AllocError>
        ensures text { OnOk result (string_bytes self.new.text ≡ string_bytes self.old.text ++ text.now) }
        ensures last { OnOk result (self.new.last ≡ last) }
    {
        self.text.push_str(text)?;
        self.last = last;
        Ok(())
    }

    /// A blank.
    pub fn blank(&mut self) -> Result<(), AllocError>
        ensures reads { OnOk result (Writes self.old self.new (λ r. r)) }
        ensures last { OnOk result (self.new.last ≡ Blank) }
    {
        self.piece(" ", Last::Blank)?;
        Ok(())
    }

    /// A new line, with two blanks for each level.
    pub fn line(&mut self, levels: u64) -> Result<(), AllocError>
        ensures { OnOk result (Writes self.old self.new (λ r. r)) }
    {
        self.piece("\n", Last::Blank)?;
        for _level in 0..levels {
            self.blank()?;
            self.blank()?;
        }
        Ok(())
    }

    /// A blank, unless a text may follow without one.
    pub(crate) fn part_from(&mut self, text: &str) -> Result<(), AllocError>
        ensures reads { OnOk result (Writes self.old self.new (λ r. r)) }
        ensures parted { OnOk result (may_go_on self.new.last text.now ≡ true) }
    {
        if may_go_on(self.last, text.as_bytes()) {
            return Ok(());
        }
        self.blank()?;
        Ok(())
    }

    /// An identifier or a word of the grammar.
    pub fn word(&mut self, text: &str) -> Result<(), AllocError>
        ensures { OnOk result (Writes self.old self.new (λ r. word text.now ∷ r)) }
    {
        self.part_from(text)?;
        self.piece(text, Last::Run)?;
        Ok(())
    }

    /// `$signed` or `$unsigned`.
    pub fn system(&mut self, text: &str) -> Result<(), AllocError>
        ensures { OnOk result (Writes self.old self.new (λ r. system text.now ∷ r)) }
    {
        self.part_from(text)?;
        self.piece(text, Last::Run)?;
        Ok(())
    }

    /// A plain decimal.
    pub fn decimal(&mut self, number: u128) -> Result<(), AllocError>
        ensures { OnOk result (Writes self.old self.new (λ r. decimal (numeral number) ∷ r)) }
    {
        let mut buffer = Buffer::new();
        let text = buffer.format(number);
        self.part_from(text)?;
        self.piece(text, Last::Digits)?;
        Ok(())
    }

    /// A based number, from its quote on.
    pub fn based(&mut self, text: &str) -> Result<(), AllocError>
        ensures { OnOk result (Writes self.old self.new (λ r. based text.now ∷ r)) }
    {
        self.part_from(text)?;
        self.piece(text, Last::Run)?;
        Ok(())
    }

    /// An operator or a mark.
    pub fn mark(&mut self, mark: Mark) -> Result<(), AllocError>
        ensures { OnOk result (Writes self.old self.new (λ r. mark_token (mark_of mark) ∷ r)) }
    {
        let text = text_of(mark);
        self.part_from(text)?;
        self.piece(text, class_of(mark))?;
        Ok(())
    }

    /// An operator or a mark with a blank on either side.
    pub fn between(&mut self, mark: Mark) -> Result<(), AllocError>
        ensures { OnOk result (Writes self.old self.new (λ r. mark_token (mark_of mark) ∷ r)) }
    {
        self.blank()?;
        self.mark(mark)?;
        self.blank()?;
        Ok(())
    }

    /// A mark with a blank after it.
    pub fn followed(&mut self, mark: Mark) -> Result<(), AllocError>
        ensures { OnOk result (Writes self.old self.new (λ r. mark_token (mark_of mark) ∷ r)) }
    {
        self.mark(mark)?;
        self.blank()?;
        Ok(())
    }

    /// A blank, where one is wanted.
    pub fn blank_if(&mut self, wanted: bool) -> Result<(), AllocError>
        ensures { OnOk result (Writes self.old self.new (λ r. r)) }
    {
        if !wanted {
            return Ok(());
        }
        self.blank()?;
        Ok(())
    }

    /// A new line, where one is wanted.
    pub fn line_if(&mut self, wanted: bool) -> Result<(), AllocError>
        ensures { OnOk result (Writes self.old self.new (λ r. r)) }
    {
        if !wanted {
            return Ok(());
        }
        self.line(0)?;
        Ok(())
    }

    /// A mark, where it is wanted.
    pub fn mark_if(&mut self, mark: Mark, wanted: bool) -> Result<(), AllocError>
        ensures { OnOk result (Writes self.old self.new (λ r. cond wanted (mark_token (mark_of mark) ∷ r) r)) }
    {
        if !wanted {
            return Ok(());
        }
        self.mark(mark)?;
        Ok(())
    }

    /// An opening bracket, where one is wanted.
    pub fn open_if(&mut self, wanted: bool) -> Result<(), AllocError>
        ensures { OnOk result (Writes self.old self.new (λ r. opened wanted r)) }
    {
        self.mark_if(Mark::LeftParenthesis, wanted)?;
        Ok(())
    }

    /// A closing bracket, where one is wanted.
    pub fn close_if(&mut self, wanted: bool) -> Result<(), AllocError>
        ensures { OnOk result (Writes self.old self.new (λ r. closed wanted r)) }
    {
        self.mark_if(Mark::RightParenthesis, wanted)?;
        Ok(())
    }

    /// A comma and a blank, where something stands before.
    pub fn comma_if(&mut self, wanted: bool) -> Result<(), AllocError>
        ensures { OnOk result (Writes self.old self.new (λ r. parted wanted r)) }
    {
        if !wanted {
            return Ok(());
        }
        self.followed(Mark::Comma)?;
        Ok(())
    }
}
