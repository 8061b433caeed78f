//! The first line.
ghost use Rattle.std.specs.Prelude.{◌≡◌, map};
ghost use Rattle.gc_script.specs.Statement.{header, version_of};

fn version_of(word: &str) -> Option<u32>
    ensures { result ≡ version_of word.now }
{
    if word == "1" {
        Some(1)
    } else if word == "2" {
        Some(2)
    } else if word == "3" {
        Some(3)
    } else {
        None
    }
}

/// The version that the words of the first line name, if they are a header.
pub fn version(words: &[&str]) -> Option<u32>
    ensures { result ≡ header (map (λ w. w.now) words.now) }
{
    match words {
        [first, version] if *first == "gcscript" => version_of(version),
        _ => None,
    }
}
