//! The first of a list is taken from it.
ghost use Rattle.std.specs.Prelude.{◌≡◌, ◌<◌, ◌+◌, ◌∷◌, vec_capacity, vec_len};

/// Takes the first.
pub fn first_of<T: Drop>(all: &mut Vec<T>) -> T
    requires some { 0 < vec_len all.old }
    ensures first { all.old.items ≡ result ∷ all.new.items }
    ensures count { vec_len all.new + 1 ≡ vec_len all.old }
    ensures capacity { vec_capacity all.new ≡ vec_capacity all.old }
{
    all.remove(0)
}
