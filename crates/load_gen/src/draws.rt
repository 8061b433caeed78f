//! Numbers that look random.
ghost use Rattle.std.specs.Prelude.{◌≡◌, ◌<◌, ◌^◌};
ghost use Rattle.load_gen.specs.Generated.{next_state, draw_of};

/// What a state is multiplied by.
const FACTOR: u64 = 6_364_136_223_846_793_005;

/// What is added to it then.
const INCREMENT: u64 = 1_442_695_040_888_963_407;

/// A linear congruential generator modulo 2^64, with the constants of D. E. Knuth's MMIX. Its low bits repeat soon,
/// so a draw answers only the high ones.
#[derive(Clone, Copy)]
pub struct Draws {
    pub state: u64,
}

impl Draws {
    /// Draws a number below 2^31.
    pub fn draw(&mut self) -> u32
        ensures state { self.new.state ≡ next_state self.old.state }
        ensures drawn { result ≡ draw_of (next_state self.old.state) }
        ensures range { result < 2 ^ 31 }
    {
        self.state = self.state.wrapping_mul(FACTOR).wrapping_add(INCREMENT);
        (self.state >> 33) as u32
    }
}
