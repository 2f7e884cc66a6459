// A number of a term.
ghost use Rattle.std.specs.Prelude.{◌≡◌};
ghost use Rattle.formats.specs.Drafts.{variables};
ghost use Rattle.texts.specs.Terms.{taken};
ghost use Rattle.decks.specs.Shown.{number_of, partial_of, got_shown};

use crate::coefficient::coefficient;
use crate::fault::Fault;
use crate::number::Number;
use crate::partial::{Got, Partial};
use crate::power::power;
use formats::Format;
use rings::Ring;

// The term after a number: a figure of its coefficient, or its next exponent.
pub fn take<K: Ring>(format: &Format, partial: Partial<K>, number: Number) -> Result<Got<K>, Fault>
    ensures { got_shown (variables format.now) result ≡ taken K.kind (variables format.now) (partial_of (variables format.now) partial) (number_of number) }
{
    match partial {
        Partial::None if K::figure_count() == 1 => coefficient(number.first, number.value, 0),
        Partial::None => Ok(Got::More(Partial::Figure(number.value, number.first))),
        Partial::Figure(figure, first) => coefficient(first, figure, number.value),
        Partial::Powers(powers) => power(format, powers, number),
    }
}
