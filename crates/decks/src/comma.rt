// A comma on a card.
ghost use Rattle.std.specs.Prelude.{◌≡◌, ◌+◌};
ghost use Rattle.texts.specs.Numbers.{on_comma};
ghost use Rattle.decks.specs.Shown.{card_of, mode_of};
ghost use Rattle.decks.specs.Steps.{counted};

use crate::card::{Card, Mode, Step};
use crate::fault::Fault;

impl Card {
    // A number ends at a comma; where there was none, a zero is understood.
    pub(crate) fn comma(self, index: usize) -> Result<Step, Fault>
        ensures { counted (self.columns + 1) result ≡ on_comma (mode_of self.mode) (card_of self) index }
    {
        let number = self.mode.ended()?.or(self.zero(Some(index)));
        Ok(Step {
            card: Card {
                mode: Mode::Between,
                some: false,
                last: Some(index),
                ..self
            },
            number,
        })
    }
}
