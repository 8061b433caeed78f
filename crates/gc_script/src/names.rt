ghost use Rattle.std.specs.Prelude.{◌≡◌, ◌≤◌, map, length};
ghost use Rattle.std.specs.List.{position};
ghost use Rattle.std.specs.Str.{bytes_eq};
ghost use Rattle.gc_script.specs.Earlier.{place};

use crate::text::is_same;

fn position_of(names: &[&str], name: &str) -> Option<usize>
    ensures { result ≡ position (λ other. bytes_eq other.now name.now) names.now }
{
    names.iter().position(|other| is_same(other, name))
}

/// A name's place, or the next free one.
pub fn place_of(names: &[&str], name: &str) -> usize
    ensures place { result ≡ place (map (λ n. n.now) names.now) name.now }
    ensures within { result ≤ length names.now }
{
    position_of(names, name).unwrap_or(names.len())
}
