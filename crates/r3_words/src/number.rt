//! Numbers.

ghost use Rattle.std.specs.Prelude.{◌≡◌};
ghost use Rattle.std.specs.List.{list_all};
ghost use Rattle.r3_words.specs.Numbers.{is_digit, is_decimal, starts_well, number_within};

fn is_digit(byte: u8) -> bool
    ensures { result ≡ is_digit byte }
{
    byte >= b'0' && byte <= b'9'
}

fn starts_well(text: &[u8]) -> bool
    ensures { result ≡ starts_well text.now }
{
    match text {
        [] => false,
        [_] => true,
        [first, ..] => *first != b'0',
    }
}

fn has_digits(text: &[u8]) -> bool
    ensures { result ≡ list_all is_digit text.now }
{
    text.iter().all(|byte| is_digit(*byte))
}

fn is_decimal(text: &[u8]) -> bool
    ensures { result ≡ is_decimal text.now }
{
    has_digits(text) && starts_well(text)
}

/// The number that the word writes, where it is one from `least` to `most`.
pub fn number(text: &str, least: u64, most: u64) -> Option<u64>
    ensures { result ≡ number_within least most text.now }
{
    // A sign and leading zeros would be read too.
    if !is_decimal(text.as_bytes()) {
        return None;
    }
    let Ok(n) = text.parse::<u64>() else {
        return None;
    };
    if least <= n && n <= most {
        Some(n)
    } else {
        None
    }
}
