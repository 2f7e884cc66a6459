// The room that texts need.
ghost use Rattle.std.specs.Prelude.{◌≡◌, ◌≤◌, length, decimal};
ghost use Rattle.cards.specs.Rooms.{Spends, room_laws};

use crate::sink::Sink;

// How many digits a number has.
fn decimal_len(n: u64) -> usize
    ensures len { result ≡ length (decimal n) }
    ensures few { result ≤ 20 }
{
    if n < 10 { 1 } else { decimal_len(n / 10) + 1 }
}

// How many bytes are left, and none once a text had more.
#[derive(Clone, Copy)]
pub(crate) struct Room {
    pub(crate) left: Option<usize>,
}

impl Sink for Room {
    ghost puts = { Spends };

    #[inline]
    fn put(&mut self, text: &[u8]) {
        self.left = self.left.and_then(|left| left.checked_sub(text.len()));
    }

    #[inline]
    fn put_decimal(&mut self, n: u64) {
        self.left = self.left.and_then(|left| left.checked_sub(decimal_len(n)));
    }

    #[inline]
    fn put_next(&mut self, n: u64) {
        self.left = self
            .left
            .and_then(|left| left.checked_sub(decimal_len(n) + 1));
    }

    ghost laws = { room_laws };
}
