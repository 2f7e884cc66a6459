// Numbers of a script: decimal digits only, leading zeros allowed.
ghost use Rattle.std.specs.Prelude.{◌≡◌, [], ◌∷◌};
ghost use Rattle.limbozafe.specs.Numerals.{natural, reads, figure};

// The number with one digit more, if the byte is a digit and the number has 64 bits.
fn with_digit(n: u64, byte: u8) -> Option<u64>
    ensures { result ≡ reads n (byte ∷ []) }
{
    if !byte.is_ascii_digit() {
        return None;
    }
    n.checked_mul(10)?.checked_add(u64::from(byte - b'0'))
}

// The number that a word writes, if it is one of 64 bits. (`str::parse` takes a plus sign, which a script may not have.)
pub(crate) fn parse_natural(word: &[u8]) -> Option<u64>
    ensures { result ≡ natural word.now }
{
    if word.is_empty() {
        return None;
    }
    let mut n = 0;
    for byte in word {
        n = with_digit(n, *byte)?;
    }
    Some(n)
}

// The figure that a word writes, if it is one of 64 bits: digits, with a minus before them if it is negative.
pub(crate) fn parse_figure(word: &[u8]) -> Option<i64>
    ensures { result ≡ figure word.now }
{
    match word {
        [b'-', digits @ ..] => 0i64.checked_sub_unsigned(parse_natural(digits)?),
        _ => i64::try_from(parse_natural(word)?).ok(),
    }
}
