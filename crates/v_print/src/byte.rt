//! Bytes that may follow one another.
ghost use Rattle.std.specs.Prelude.{◌≡◌};
ghost use Rattle.wb_values.specs.Names.{is_letter, is_digit};
ghost use Rattle.v_print.specs.Reads.{is_among, may_follow, may_go_on};

use crate::last::Last;

fn is_letter(byte: u8) -> bool
    ensures { result ≡ is_letter byte }
{
    byte.is_ascii_alphabetic() || byte == b'_'
}

fn is_digit(byte: u8) -> bool
    ensures { result ≡ is_digit byte }
{
    byte.is_ascii_digit()
}

fn is_among(bytes: &[u8], byte: u8) -> bool
    ensures { result ≡ is_among bytes.now byte }
{
    bytes.contains(&byte)
}

/// Whether a byte may follow with no blank between.
fn may_follow(last: Last, byte: u8) -> bool
    ensures { result ≡ may_follow last byte }
{
    match last {
        Last::Blank => true,
        Last::Run => is_among(b" \n()[]{},;:", byte),
        Last::Digits => is_among(b" \n()[]{},;:'", byte),
        Last::Opened => byte != b'*',
        Last::Stop => true,
        Last::Prefix => { is_letter(byte) || is_digit(byte) || is_among(b" \n({'$", byte) }
        Last::Operator => is_among(b" \n", byte),
    }
}

/// Whether a text may follow with no blank between.
pub(crate) fn may_go_on(last: Last, text: &[u8]) -> bool
    ensures { result ≡ may_go_on last text.now }
{
    match text.first() {
        Some(byte) => may_follow(last, *byte),
        None => true,
    }
}
