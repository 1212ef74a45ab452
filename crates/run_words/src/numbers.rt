//! Numbers in words.
ghost use Rattle.std.specs.Prelude.{◌≡◌, ◌≤◌, ◌<◌, ◌^◌, ◌↔◌, IsTrue, slice_index};
ghost use Rattle.run_words.specs.Words.{number_in, within};

/// A number from 1 to `most`, in decimal digits without a leading zero.
pub(crate) fn number_in(most: u64, word: &str) -> Option<u64>
    ensures { result ≡ number_in most word.now }
{
    if !is_led(word) {
        return None;
    }
    match word.parse::<u64>() {
        Ok(number) => within(most, number),
        Err(_) => None,
    }
}

/// Whether the first byte is a digit and not 0.
fn is_led(word: &str) -> bool
    ensures { IsTrue result ↔ (49 ≤ slice_index word.now 0) × (slice_index word.now 0 ≤ 57) }
{
    match word.as_bytes() {
        [first, ..] => b'1' <= *first && *first <= b'9',
        [] => false,
    }
}

fn within(most: u64, number: u64) -> Option<u64>
    ensures { result ≡ within most number }
{
    if 0 < number && number <= most {
        Some(number)
    } else {
        None
    }
}
