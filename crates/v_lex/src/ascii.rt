//! Texts of tokens.

ghost use Rattle.std.specs.Prelude.{◌≡◌, true};
ghost use Rattle.std.specs.List.{list_all};
ghost use Rattle.std.specs.Char.{is_ascii};
ghost use Rattle.v_lex.specs.View.{taken};

use crate::run::taken_before;

/// The bytes as a text.
pub(crate) fn ascii_text(bytes: &[u8]) -> &str
    requires { list_all is_ascii bytes.now ≡ true }
    ensures { result.now ≡ bytes.now }
{
    match std::str::from_utf8(bytes) {
        Ok(text) => text,
        Err(_) => unreachable!(),
    }
}

/// The text up to a rest of it.
pub(crate) fn ascii_before<'t>(text: &'t [u8], rest: &[u8]) -> &'t str
    requires { list_all is_ascii (taken text.now rest.now) ≡ true }
    ensures { result.now ≡ taken text.now rest.now }
{
    ascii_text(taken_before(text, rest))
}
