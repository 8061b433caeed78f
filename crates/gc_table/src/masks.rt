//! The masks of single bits.
ghost use Rattle.std.specs.Prelude.{◌≡◌, ◌<◌, ◌^◌};
ghost use Rattle.mark_core.specs.Bits.{complement};

pub fn bit(i: u32) -> u64
    requires { i < 64 }
    ensures { result ≡ 2 ^ i }
{
    1 << i
}

pub fn all_but(i: u32) -> u64
    requires { i < 64 }
    ensures { result ≡ complement (2 ^ i) }
{
    !(1 << i)
}
