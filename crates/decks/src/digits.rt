// The digits of a number.
ghost use Rattle.std.specs.Prelude.{◌≡◌, ◌+◌, ◌<◌};
ghost use Rattle.decks.specs.Shown.{begun_of};
ghost use Rattle.decks.specs.Steps.{begun, Lengthens};

use crate::begun::Begun;
use crate::card::Mode;
use crate::fault::Fault;
use refusals::Refusal;

// How many digits a number may have.
const DIGITS: u8 = 18;

impl Mode {
    // The number that a digit at an index goes on with: one under way, or a new one without digits.
    pub(crate) fn begun(self, index: usize) -> Begun
        ensures { begun_of result ≡ begun self index }
    {
        match self {
            Mode::Between => Begun::new(index, false),
            Mode::Sign(minus) => Begun::new(minus, true),
            Mode::Within(number) => number,
        }
    }
}

impl Begun {
    // A number without digits so far.
    fn new(first: usize, negative: bool) -> Begun
        ensures { begun_of result ≡ record { first = first; negative = negative; digits = 0; size = 0 } }
    {
        Begun {
            first,
            negative,
            digits: 0,
            size: 0,
        }
    }

    // The number with one more digit.
    pub(crate) fn longer(self, digit: u8) -> Result<Begun, Fault>
        requires { digit < 10 }
        ensures { Lengthens self digit result }
    {
        if self.digits >= DIGITS {
            return Err(Fault::new(Refusal::Digits, self.first));
        }
        Ok(Begun {
            first: self.first,
            negative: self.negative,
            digits: self.digits + 1,
            size: 10 * self.size + u64::from(digit),
        })
    }
}
