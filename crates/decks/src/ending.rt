// Where a card ends.
ghost use Rattle.std.specs.Prelude.{◌≡◌, drop};
ghost use Rattle.texts.specs.Reading.{through};

// How many bytes the card at the start of a text has, with its byte 10.
fn card_len(text: &[u8]) -> usize
    ensures { result ≡ through text.now }
{
    text.iter()
        .position(|&byte| byte == b'\n')
        .map_or(text.len(), |end| end + 1)
}

// How many bytes there are from the byte at an index through the end of its card.
pub fn through(text: &[u8], from: usize) -> usize
    ensures { result ≡ through (drop from text.now) }
{
    text.get(from..).map_or(0, card_len)
}
