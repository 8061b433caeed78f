ghost use Rattle.std.specs.Prelude.{◌≡◌, IfSome, map};
ghost use Rattle.std.specs.String.{string_bytes};
ghost use Rattle.gc_play.specs.Given.{words_behind};

use std::alloc::Global;
use std::env::Args;
use std::io;

/// The words behind the program's name; none if memory ran out or one isn't UTF-8.
pub fn given_words(alloc: Global, given: io::Result<Args>) -> Option<Vec<String>>
    ensures { IfSome result (λ words. map string_bytes words.items ≡ words_behind given) }
{
    let mut words = Vec::new(alloc);
    let mut given = match given {
        Ok(given) => given,
        Err(e) if e.kind() == io::ErrorKind::InvalidData => return Some(words),
        Err(_) => return None,
    };
    given.next();
    for word in given {
        match words.push(word) {
            Ok(()) => {}
            Err(_) => return None,
        }
    }
    Some(words)
}
