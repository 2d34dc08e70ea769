//! Ends of comments, attributes and strings.

ghost use Rattle.std.specs.Prelude.{◌≡◌, ◌==◌, false, option_map};
ghost use Rattle.wb_values.specs.Names.{begins_with};
ghost use Rattle.verilog_text.specs.Lexical.{closing_length, string_length};
ghost use Rattle.v_lex.specs.View.{rest_after};

/// Whether the text begins with the byte.
pub(crate) fn begins_with_byte(text: &[u8], byte: u8) -> bool
    ensures { result ≡ begins_with (λ b. b == byte) text.now }
{
    match text.first() {
        Some(first) => *first == byte,
        None => false,
    }
}

/// What stands behind the first place where the two bytes stand.
#[tactic(auto, unfolding(verilog_text::specs::Lexical::closing_length))]
pub(crate) fn behind_closing(first: u8, second: u8, text: &[u8]) -> Option<&[u8]>
    ensures { option_map (λ r. r.now) result ≡ rest_after text.now (closing_length first second false text.now) }
{
    let mut is_behind_first = false;
    for (i, byte) in text.iter().enumerate() {
        if is_behind_first && *byte == second {
            return Some(&text[i + 1..]);
        }
        is_behind_first = *byte == first;
    }
    None
}

/// What stands behind the quote that ends a string on its line.
#[tactic(auto, unfolding(verilog_text::specs::Lexical::string_length))]
pub(crate) fn behind_string(text: &[u8]) -> Option<&[u8]>
    ensures { option_map (λ r. r.now) result ≡ rest_after text.now (string_length false text.now) }
{
    let mut escaped = false;
    for (i, byte) in text.iter().enumerate() {
        if *byte == b'\n' {
            return None;
        }
        if !escaped && *byte == b'"' {
            return Some(&text[i + 1..]);
        }
        escaped = !escaped && *byte == b'\\';
    }
    None
}
