ghost use Rattle.std.specs.Prelude.{◌≡◌, ◌<◌, ◌+◌, ◌++◌, OnOk, codes};
ghost use Rattle.std.specs.String.{string_bytes};
ghost use Rattle.load_gen.specs.Generated.{state_after_line, generated_line, drawn_text};

use crate::draws::Draws;
use std::alloc::AllocError;

/// How many lines a block has.
pub const BLOCK: u32 = 64;

const NAMES: u32 = 8;

fn letter(n: u32) -> char
    requires { n < 8 }
    ensures { result ≡ 97 + n }
{
    char::from(b'a' + n as u8)
}

/// Appends the command that r says: `r mod 8` is its kind; the quotients of r by 8, 64, 512 and 2048 say its two
/// names, its field and its value.
fn push_drawn(text: &mut String, r: u32) -> Result<(), AllocError>
    ensures { OnOk result (string_bytes text.new ≡ string_bytes text.old ++ drawn_text r ++ codes "\n") }
{
    let v = letter(r / 8 % NAMES);
    let x = letter(r / 64 % NAMES);
    let i = r / 512 % 4;
    let n = r / 2048 % 1000;
    match r % 8 {
        0..=2 => write!(text, "new {v} {n}\n"),
        3 => write!(text, "let {v} {x}\n"),
        7 => write!(text, "get {v} {x} {i}\n"),
        _ => write!(text, "set {v} {i} {x}\n"),
    }
}

/// Appends line `place` of a block, counted from 0. Lines 8 to 62 draw one number each, the others none.
pub fn push_line(text: &mut String, draws: &mut Draws, place: u32) -> Result<(), AllocError>
    requires { place < BLOCK }
    ensures text { let after = state_after_line place draws.old.state in
        OnOk result (string_bytes text.new ≡ string_bytes text.old ++ generated_line place after ++ codes "\n") }
    ensures state { draws.new.state ≡ state_after_line place draws.old.state }
{
    if place < NAMES {
        let name = letter(place);
        return write!(text, "nil {name}\n");
    }
    let r = draws.draw();
    if place == BLOCK - 1 {
        let name = letter(r % NAMES);
        write!(text, "say s {name}\n")
    } else {
        push_drawn(text, r)
    }
}
