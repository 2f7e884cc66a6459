// A digit on a card.
ghost use Rattle.std.specs.Prelude.{◌≡◌, ◌+◌, ◌<◌};
ghost use Rattle.texts.specs.Numbers.{on_digit};
ghost use Rattle.decks.specs.Shown.{card_of, mode_of};
ghost use Rattle.decks.specs.Steps.{counted};

use crate::card::{Card, Mode, Step};
use crate::fault::Fault;

impl Card {
    // A digit begins a number, or goes on with one.
    pub(crate) fn digit(self, index: usize, digit: u8) -> Result<Step, Fault>
        requires { digit < 10 }
        ensures { counted (self.columns + 1) result ≡ on_digit (mode_of self.mode) (card_of self) index digit }
    {
        let number = self.mode.begun(index).longer(digit)?;
        Ok(Step {
            card: Card {
                mode: Mode::Within(number),
                ..self
            },
            number: None,
        })
    }
}
