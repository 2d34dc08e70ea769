//! Lines and words of a text, and its parts before and behind a byte.

ghost use Rattle.std.specs.Prelude.{◌≡◌, ◌<◌, ◌≤◌, ◌∷◌, [], length, option_map, IfSome};
ghost use Rattle.scripts.specs.Script.{is_space_or_tab, is_line_end, is_return, words_of, lines_of, is_skipped, at_last, without_skipped};
ghost use Rattle.std.specs.List.{list_any};
ghost use Rattle.ila_sim.specs.Cuts.{length_before, after_blanks, cut_at, lines_left, room_left, without_last_return, IsNextWord, IsNextKept};

fn is_blank(byte: u8) -> bool
    ensures { result ≡ is_space_or_tab byte }
{
    byte == b' ' || byte == b'\t'
}

#[tactic(auto, unfolding(crate::specs::Cuts::after_blanks))]
fn behind_blanks(text: &[u8]) -> &[u8]
    ensures { result.now ≡ after_blanks text.now }
{
    for (i, byte) in text.iter().enumerate() {
        if !is_blank(*byte) {
            return &text[i..];
        }
    }
    &text[text.len()..]
}

#[tactic(auto, unfolding(crate::specs::Cuts::length_before))]
fn word_length(text: &[u8]) -> usize
    ensures length { result ≡ length_before is_space_or_tab text.now }
    ensures within { result ≤ length text.now }
{
    for (i, byte) in text.iter().enumerate() {
        if is_blank(*byte) {
            return i;
        }
    }
    text.len()
}

#[tactic(auto, unfolding(crate::specs::Cuts::length_before))]
fn line_length(text: &[u8]) -> usize
    ensures length { result ≡ length_before is_line_end text.now }
    ensures within { result ≤ length text.now }
{
    for (i, byte) in text.iter().enumerate() {
        if *byte == b'\n' {
            return i;
        }
    }
    text.len()
}

/// The place of the last byte of a kind.
pub(crate) fn last_place(text: &[u8], byte: u8) -> Option<usize>
    ensures cut { at_last byte text.now ≡ option_map (cut_at text.now) result }
    ensures within { IfSome result (λ k. k < length text.now) }
{
    let mut place = text.len();
    while place > 0 {
        place -= 1;
        if text[place] == byte {
            return Some(place);
        }
    }
    None
}

/// Whether a carriage return stands in the text.
pub(crate) fn has_return(text: &[u8]) -> bool
    ensures { result ≡ list_any is_return text.now }
{
    text.iter().any(|byte| *byte == b'\r')
}

/// The first word of a line, and what stands behind it.
pub(crate) fn next_word(line: &[u8]) -> Option<(&[u8], &[u8])>
    ensures words { IsNextWord line.now result }
    ensures shorter { IfSome result (λ w. length w.1.now < length line.now) }
{
    let line = behind_blanks(line);
    if line.is_empty() {
        return None;
    }
    let end = word_length(line);
    Some((&line[..end], &line[end..]))
}

/// Whether a line says nothing: it is empty, or a comment.
pub(crate) fn is_skipped(line: &[u8]) -> bool
    ensures { result ≡ is_skipped line.now }
{
    match line {
        [] => true,
        [first, ..] => *first == b'#',
    }
}

/// The line without a carriage return at its end.
#[tactic(auto, unfolding(crate::specs::Cuts::without_last_return))]
fn without_last_return(line: &[u8]) -> &[u8]
    ensures { result.now ≡ without_last_return line.now }
{
    if line.is_empty() {
        return line;
    }
    let last = line.len() - 1;
    if line[last] == b'\r' {
        &line[..last]
    } else {
        line
    }
}

/// The first line of a text, and what stands behind it, if there is a further line.
pub(crate) fn next_line(text: &[u8]) -> (&[u8], Option<&[u8]>)
    ensures lines { lines_of text.now ≡ result.0.now ∷ lines_left result.1 }
    ensures shorter { room_left result.1 ≤ length text.now }
{
    let end = line_length(text);
    if end == text.len() {
        return (text, None);
    }
    (without_last_return(&text[..end]), Some(&text[end + 1..]))
}

/// The first line that says something, and what stands behind it, if there is a further line.
pub(crate) fn next_kept(left: Option<&[u8]>) -> Option<(&[u8], Option<&[u8]>)>
    ensures lines { IsNextKept left.entry result }
    ensures shorter { IfSome result (λ l. room_left l.1 < room_left left.entry) }
{
    let mut rest = left;
    while let Some(text) = rest {
        let (line, next) = next_line(text);
        if !is_skipped(line) {
            return Some((line, next));
        }
        rest = next;
    }
    None
}
