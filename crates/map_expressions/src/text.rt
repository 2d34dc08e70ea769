//! The text of an expression with its tokens, and the tree that they spell.

ghost use Rattle.std.specs.Prelude.{◌≡◌, ◌∷◌, ◌++◌, [], IfOk, OnOk, map};
ghost use Rattle.verilog_trees.specs.Syntax.{Expression as PureExpression};
ghost use Rattle.verilog_designs.specs.Names.{names_in};
ghost use Rattle.map_files.specs.Written.{Text};
ghost use Rattle.map_rules.specs.Expressions.{ReadsAs};
ghost use Rattle.v_dotted.specs.Dotted.{owned_of, owned_tokens_of};
ghost use Rattle.v_expr.specs.Flat.{IsFlat};
ghost use Rattle.map_expressions.specs.Reading.{AreJoined, HasTokens, IsRead, IsTokenText, words_of};

use crate::TextStop;
use std::alloc::{AllocError, Global};
use v_dotted::{OwnedToken, dotted_tokens, whole_expression};
use v_expr::ExpressionStop;
use v_lex::{LexStop, Token, TokenKind, note_behind, tokens};
use v_syntax::tree::Expression;

/// The text of an expression with its tokens, where identifiers with dots between them are one name. Its tree borrows the names.
#[derive(Drop)]
pub struct TokenText {
    /// The text, as the one file that it is read as.
    files: Vec<Vec<u8>>,
    tokens: Vec<OwnedToken>,
}

/// The text as the only file.
fn one_file(alloc: Global, text: &str) -> Result<Vec<Vec<u8>>, AllocError>
    ensures { IfOk result (λ v. map (λ f. f.items) v.items ≡ text.now ∷ []) }
{
    let mut bytes = Vec::new(alloc);
    bytes.extend_from_slice(text.as_bytes())?;
    let mut files = Vec::new(alloc);
    files.push(bytes)?;
    Ok(files)
}

/// The tokens of files, with dotted names joined.
fn joined_tokens(alloc: Global, files: &[Vec<u8>]) -> Result<Vec<OwnedToken>, TextStop>
    ensures { AreJoined result (map (λ f. f.items) files.now) }
{
    match tokens(alloc, files) {
        Ok(list) => match dotted_tokens(alloc, &list) {
            Ok(joined) => Ok(joined),
            Err(_) => Err(TextStop::NoMemory),
        },
        Err(LexStop::Refused(refusal)) => Err(TextStop::Refused(refusal.note)),
        Err(LexStop::NoMemory) => Err(TextStop::NoMemory),
    }
}

/// Adds the token, if it is a word.
fn add_word<'t>(token: &'t OwnedToken, names: &mut Vec<&'t str>) -> Result<(), AllocError>
    ensures { OnOk result (map (λ n. n.now) names.new.items ≡ map (λ n. n.now) names.old.items ++ words_of (owned_of token.now ∷ [])) }
{
    match token.kind {
        TokenKind::Word => {
            names.push(token.text.as_str())?;
            Ok(())
        }
        TokenKind::System | TokenKind::Decimal | TokenKind::Based | TokenKind::Mark(_) => Ok(()),
    }
}

/// The words among tokens.
fn words_of<'t>(alloc: Global, tokens: &'t [OwnedToken]) -> Result<Vec<&'t str>, AllocError>
    ensures { IfOk result (λ v. map (λ n. n.now) v.items ≡ words_of (owned_tokens_of tokens.now)) }
{
    let mut names = Vec::new(alloc);
    for token in tokens {
        add_word(token, &mut names)?;
    }
    Ok(names)
}

/// The tokens, whose texts are borrowed.
fn borrowed(alloc: Global, tokens: &[OwnedToken]) -> Result<Vec<Token<'_>>, AllocError> {
    let mut list = Vec::new(alloc);
    for token in tokens {
        list.push(Token {
            kind: token.kind,
            text: token.text.as_str(),
            file: token.file,
            start: token.start,
        })?;
    }
    Ok(list)
}

/// The refusal at the token where so many are left; at the end of the text where none are.
fn refused_at(alloc: Global, files: &[Vec<u8>], tokens: &[OwnedToken], left: usize) -> TextStop {
    let Ok(list) = borrowed(alloc, tokens) else {
        return TextStop::NoMemory;
    };
    match note_behind(alloc, files, &list, tokens.len().saturating_sub(left)) {
        Some(note) => TextStop::Refused(note),
        None => TextStop::NoMemory,
    }
}

impl TokenText {
    /// The tokens of a text, which is read by itself, as a file of its own. A text without tokens is read as no expression.
    pub fn new(alloc: Global, text: &str) -> Result<TokenText, TextStop>
        ensures { IsTokenText result text.now }
    {
        let files = one_file(alloc, text)?;
        let tokens = joined_tokens(alloc, &files)?;
        Ok(TokenText { files, tokens })
    }

    /// The expression that the text is read as.
    pub fn expression(&self, alloc: Global) -> Result<Expression<'_>, TextStop>
        ensures read { (t : Text) → HasTokens self.now t → IsRead result t }
        ensures flat { IfOk result (λ e. IsFlat e) }
    {
        match whole_expression(alloc, &self.tokens) {
            Ok(expression) => Ok(expression),
            Err(ExpressionStop::Refused(left)) => {
                Err(refused_at(alloc, &self.files, &self.tokens, left))
            }
            Err(ExpressionStop::NoMemory) => Err(TextStop::NoMemory),
        }
    }
    /// The names in the expression that the text is read as, in their order.
    pub fn names(&self, alloc: Global) -> Result<Vec<&str>, AllocError>
        ensures { IfOk result (λ v. (t : Text) (e : PureExpression) → HasTokens self.now t → ReadsAs t e → map (λ n. n.now) v.items ≡ names_in e) }
    {
        let names = words_of(alloc, &self.tokens)?;
        Ok(names)
    }
}
