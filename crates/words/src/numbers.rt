// Decimal numbers of a stated range.
ghost use Rattle.std.specs.Prelude.{◌≡◌, ◌≤◌, IfSome};
ghost use Rattle.words.specs.Numbers.{lengthened, spelled, number_of};

// The number with one digit more at its end, if it is a digit and the number at most `most`.
fn longer(value: u32, b: u8, most: u32) -> Option<u32>
    ensures { result ≡ lengthened most value b }
{
    if !b.is_ascii_digit() {
        return None;
    }
    let longer = u64::from(value) * 10 + u64::from(b - b'0');
    if longer > u64::from(most) {
        return None;
    }
    Some(longer as u32)
}

// The number that digits spell, if they are digits all and it is at most `most`.
fn spell(word: &[u8], most: u32) -> Option<u32>
    ensures value { result ≡ spelled most 0 word.now }
    ensures within { IfSome result (λ n. n ≤ most) }
{
    word.iter().try_fold(0, |value, b| longer(value, *b, most))
}

// The number of a word of one digit or more, if it is at most `most`.
pub fn number(word: &[u8], most: u32) -> Option<u32>
    ensures value { result ≡ number_of most word.now }
    ensures within { IfSome result (λ n. n ≤ most) }
{
    if word.is_empty() {
        return None;
    }
    spell(word, most)
}
