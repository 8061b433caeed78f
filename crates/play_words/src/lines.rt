ghost use Rattle.std.specs.Prelude.{◌≡◌, ◌==◌, ◌<◌, ◌≤◌, length, position};
ghost use Rattle.play_report.specs.Causes.{WritesTo};
ghost use Rattle.play_words.specs.Lines.{first_line};

use play_report::{Failed, Sink, write_all};

fn line_feed(text: &[u8]) -> Option<usize>
    ensures { result ≡ position (λ b. b == 10) text.now }
{
    text.iter().position(|b| *b == b'\n')
}

/// The bytes of the first line, with its line feed if there is one.
fn first_line(text: &[u8]) -> usize
    ensures is { result ≡ first_line text.now }
    ensures within { result ≤ length text.now }
    ensures some { 0 < length text.now → 0 < result }
{
    match line_feed(text) {
        None => text.len(),
        Some(k) => k + 1,
    }
}

/// Hands a text to the sink, each line as one piece.
pub fn write_lines<K: Sink>(sink: &mut K, text: &[u8]) -> Result<(), Failed>
    ensures { WritesTo K.written K.faults result sink.old sink.new text.now }
{
    let mut rest = text;
    while !rest.is_empty() {
        let (line, after) = rest.split_at(first_line(rest));
        match write_all(sink, line) {
            Ok(()) => rest = after,
            Err(e) => return Err(e),
        }
    }
    Ok(())
}
