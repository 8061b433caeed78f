ghost use Rattle.std.specs.Prelude.{◌≡◌, ◌<◌, ◌≤◌, ◌+◌, ◌++◌, map, length, take, drop, IfOk, slice_index};
ghost use Rattle.std.specs.List.{position, position_or_len};
ghost use Rattle.gc_script.specs.ScriptText.{words};
ghost use Rattle.gc_script.specs.FirstLine.{ends_piece, first_line, after_line, words_left, after_left, IsCut};

use std::alloc::AllocError;

fn ends_piece(byte: u8) -> bool
    ensures { result ≡ ends_piece byte }
{
    byte == b' ' || byte == b'\n'
}

fn first_end(text: &[u8]) -> Option<usize>
    ensures { result ≡ position ends_piece text.now }
{
    text.iter().position(|b| ends_piece(*b))
}

#[tactic(auto, using(crate::proofs::Clear::end_by_position))]
fn piece_end(text: &[u8]) -> usize
    ensures end { result ≡ position_or_len ends_piece text.now }
    ensures within { result ≤ length text.now }
{
    first_end(text).unwrap_or(text.len())
}

fn cut_at<'a>(text: &'a str, end: usize) -> (&'a str, &'a str)
    requires within { end < length text.now }
    requires ascii { slice_index text.now end < 128 }
    ensures before { result.0.now ≡ take end text.now }
    ensures after { result.1.now ≡ drop (end + 1) text.now }
{
    (&text[..end], &text[end + 1..])
}

/// The first piece of a text, whether the line goes on after it, and what follows.
fn cut<'a>(text: &'a str) -> (&'a str, bool, &'a str)
    requires { 0 < length text.now }
    ensures cut { IsCut result.0.now result.1 result.2.now text.now }
    ensures shorter { length result.2.now < length text.now }
{
    let bytes = text.as_bytes();
    let end = piece_end(bytes);
    if end < bytes.len() {
        let goes_on = bytes[end] == b' ';
        let (piece, rest) = cut_at(text, end);
        return (piece, goes_on, rest);
    }
    (text, false, "")
}

/// Takes the first word off a text's first line, if any; says whether the line goes on, and gives the rest.
fn take_word<'a>(found: &mut Vec<&'a str>, text: &'a str) -> Result<(bool, &'a str), AllocError>
    requires { 0 < length text.now }
    ensures found { IfOk result (λ r. map (λ w. w.now) found.new.items ++ words_left r.0 r.1.now ≡ map (λ w. w.now) found.old.items ++ words (first_line text.now)) }
    ensures after { IfOk result (λ r. after_left r.0 r.1.now ≡ after_line text.now) }
    ensures shorter { IfOk result (λ r. length r.1.now < length text.now) }
{
    let (piece, goes_on, rest) = cut(text);
    if piece.is_empty() {
        return Ok((goes_on, rest));
    }
    match found.push(piece) {
        Ok(()) => Ok((goes_on, rest)),
        Err(_) => Err(AllocError),
    }
}

/// Finds the words of a text's first line, in place of those found before, and gives what follows the line.
pub fn take_words<'a>(found: &mut Vec<&'a str>, text: &'a str) -> Result<&'a str, AllocError>
    ensures found { IfOk result (λ rest. map (λ w. w.now) found.new.items ≡ words (first_line text.now)) }
    ensures after { IfOk result (λ rest. rest.now ≡ after_line text.now) }
{
    found.clear();
    let mut rest = text;
    'line: while !rest.is_empty() {
        match take_word(found, rest) {
            Ok((true, left)) => rest = left,
            Ok((false, left)) => return Ok(left),
            Err(e) => return Err(e),
        }
    }
    Ok(rest)
}
