ghost use Rattle.std.specs.Prelude.{◌≡◌};
ghost use Rattle.command_words.specs.Words.{number_in};

use gc_script::number_of;

/// The number of a text of one or more digits, if it lies in the range.
pub fn number_in(least: u32, greatest: u32, text: &str) -> Option<u32>
    ensures { result ≡ number_in least greatest text.now }
{
    if text.is_empty() {
        return None;
    }
    let number = number_of(text)?;
    if u64::from(least) <= number && number <= u64::from(greatest) {
        Some(number as u32)
    } else {
        None
    }
}
