//! The least part of a condition that fails, counted from 1.
ghost use Rattle.std.specs.Prelude.{◌≡◌, ◌<◌, ◌+◌, length};
ghost use Rattle.mark_core.specs.Steps.{first_false as first_false_of};

fn first_false_from(parts: &[bool], from: u8) -> Option<u8>
    requires { length parts.now + from < 256 }
    ensures { result ≡ first_false_of from parts.now }
{
    match parts {
        [] => None,
        [first, rest @ ..] => if *first {
            first_false_from(rest, from + 1)
        } else {
            Some(from)
        },
    }
}

pub fn first_false(parts: &[bool]) -> Option<u8>
    requires { length parts.now < 255 }
    ensures { result ≡ first_false_of 1 parts.now }
{
    first_false_from(parts, 1)
}
