// A byte between numbers.
ghost use Rattle.std.specs.Prelude.{◌≡◌};
ghost use Rattle.texts.specs.Numbers.{beyond};
ghost use Rattle.decks.specs.Shown.{shown, card_of};

use crate::card::{Card, Mode, Step};
use crate::fault::Fault;

impl Card {
    // A number ends at a blank, and where its card is cut off.
    pub(crate) fn gap(self) -> Result<Step, Fault>
        ensures { shown result ≡ beyond (card_of self) }
    {
        let number = self.mode.ended()?;
        Ok(Step {
            card: Card {
                mode: Mode::Between,
                some: self.some || number.is_some(),
                ..self
            },
            number,
        })
    }
}
