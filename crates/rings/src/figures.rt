// Figures read and written.
ghost use Rattle.std.specs.Prelude.{◌≡◌, ◌+◌, Some};
ghost use Rattle.rings.specs.Remainders.{figured};
ghost use Rattle.rings.specs.Figures.{written};

use crate::ring::Ring;
use refusals::Refusal;
use std::fmt;

// The number that figures write, for a kind of one figure whose numbers go from 0 to `last`.
pub fn number_up_to(last: u32, first: i64, second: i64) -> Result<u32, Refusal>
    ensures { result ≡ figured (last + 1) (λ n. n) first second }
{
    u32::try_from(first)
        .ok()
        .filter(|number| *number <= last && second == 0)
        .ok_or(Refusal::Unfit)
}

// A value, written by its figures: one, or two with a comma between them.
#[derive(Clone, Copy, Debug)]
pub struct Figures<K>(pub K);

impl<K: Ring> fmt::Display for Figures<K> {
    ghost output = { λ f. Some (written K.kind f.0) };

    fn fmt<W: fmt::Write>(&self, f: &mut fmt::Formatter<W>) -> fmt::Result {
        let (first, second) = self.0.figures();
        if K::figure_count() == 1 {
            write!(f, "{first}")
        } else {
            write!(f, "{first},{second}")
        }
    }
}
