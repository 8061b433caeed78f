ghost use Rattle.std.specs.Prelude.{◌≡◌, ◌<◌, None, length, IfSome};
ghost use Rattle.std.specs.List.{list_all};
ghost use Rattle.gc_script.specs.ScriptText.{is_allowed, first_foreign};

fn is_allowed(byte: u8) -> bool
    ensures { result ≡ is_allowed byte }
{
    byte == b'\n' || (32 <= byte && byte <= 126)
}

/// Whether a script may have each of these bytes. The loop goes on to the end, so that it looks at many bytes
/// together.
fn are_allowed(source: &[u8]) -> bool
    ensures { result ≡ list_all is_allowed source.now }
{
    let mut allowed = true;
    for b in source {
        allowed &= is_allowed(*b);
    }
    allowed
}

/// The offset of the first byte that is neither a line feed nor from 32 to 126, if any.
#[tactic(auto, using(crate::proofs::Bytes::none_foreign))]
pub fn first_foreign(source: &[u8]) -> Option<usize>
    ensures first { result ≡ first_foreign source.now }
    ensures within { IfSome result (λ offset. offset < length source.now) }
{
    if are_allowed(source) {
        return None;
    }
    source.iter().position(|b| !is_allowed(*b))
}

/// The bytes of a source without a foreign byte, as a text, not copied.
#[tactic(auto, using(crate::proofs::Bytes::is_text))]
pub fn text_of<'a>(source: &'a [u8]) -> &'a str
    requires { first_foreign source.now ≡ None }
    ensures { result.now ≡ source.now }
{
    match str::from_utf8(source) {
        Ok(text) => text,
        Err(_) => unreachable!(),
    }
}
