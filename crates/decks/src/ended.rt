// Where a number ends.
ghost use Rattle.std.specs.Prelude.{◌≡◌};
ghost use Rattle.decks.specs.Steps.{ended};

use crate::card::Mode;
use crate::fault::Fault;
use crate::number::Number;
use refusals::Refusal;

impl Mode {
    // The number that ends here, if there is one. A minus may not stand without one.
    pub(crate) fn ended(self) -> Result<Option<Number>, Fault>
        ensures { result ≡ ended self }
    {
        match self {
            Mode::Between => Ok(None),
            Mode::Sign(minus) => Err(Fault::new(Refusal::Byte, minus)),
            Mode::Within(number) => Ok(Some(Number::from(number))),
        }
    }
}
