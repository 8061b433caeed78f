ghost use Rattle.std.specs.Prelude.{◌≤◌, length};

/// A word of at most 32 bytes.
#[derive(Clone, Copy)]
pub struct Label<'a> {
    pub text: &'a str,
    pub ghost short: { length text.now ≤ 32 },
}
