// A minus on a card.
ghost use Rattle.std.specs.Prelude.{◌≡◌, ◌+◌};
ghost use Rattle.texts.specs.Numbers.{on_minus};
ghost use Rattle.decks.specs.Shown.{card_of, mode_of};
ghost use Rattle.decks.specs.Steps.{counted};

use crate::card::{Card, Mode, Step};
use crate::fault::Fault;

impl Card {
    // A minus stands before a number only.
    pub(crate) fn minus(self, index: usize) -> Result<Step, Fault>
        ensures { counted (self.columns + 1) result ≡ on_minus (mode_of self.mode) (card_of self) index }
    {
        match self.mode {
            Mode::Between => Ok(Step {
                card: Card {
                    mode: Mode::Sign(index),
                    ..self
                },
                number: None,
            }),
            _ => Err(self.mode.stray(index)),
        }
    }
}
