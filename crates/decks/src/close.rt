// The end of a card.
ghost use Rattle.std.specs.Prelude.{◌≡◌};
ghost use Rattle.texts.specs.Numbers.{fresh, closed};
ghost use Rattle.decks.specs.Shown.{shown, card_of};

use crate::card::{Card, Mode, Step};
use crate::fault::Fault;

impl Card {
    // The start of a card.
    pub fn new() -> Card
        ensures { card_of result ≡ fresh }
    {
        Card {
            columns: 0,
            mode: Mode::Between,
            some: false,
            last: None,
        }
    }

    // A number ends with its card; after a comma without a number, a zero is understood.
    pub fn close(self) -> Result<Step, Fault>
        ensures { shown result ≡ closed (card_of self) }
    {
        let number = self.mode.ended()?.or(self.zero(self.last));
        Ok(Step {
            card: Card::new(),
            number,
        })
    }
}
