// A number that has ended.
ghost use Rattle.std.specs.Prelude.{◌≡◌};
ghost use Rattle.decks.specs.Steps.{value_of};

use crate::begun::Begun;

// Its value, and its first byte.
#[derive(Clone, Copy)]
pub struct Number {
    pub value: i64,
    pub first: usize,
}

impl From<Begun> for Number {
    ghost from_gives = { λ n r. r ≡ record { value = value_of n; first = n.first } };

    fn from(number: Begun) -> Number {
        // Eighteen digits fit, so that the cast needs no `try_from` with an error that cannot come.
        let size = number.size as i64;
        Number {
            value: if number.negative { -size } else { size },
            first: number.first,
        }
    }
}
