// A byte of a card.
ghost use Rattle.std.specs.Prelude.{◌≡◌};
ghost use Rattle.texts.specs.Numbers.{worked};
ghost use Rattle.decks.specs.Shown.{shown, card_of};

use crate::card::{Card, Step};
use crate::fault::Fault;

// How many columns of a card count.
const COLUMNS: u8 = 72;

impl Card {
    // The card after the byte at an index, and the number that ended there; or the fault that was found.
    pub fn step(self, index: usize, byte: u8) -> Result<Step, Fault>
        ensures { shown result ≡ worked (card_of self) index byte }
    {
        if byte == b'\n' {
            return self.close();
        }
        // Past the columns any byte is a gap, and no column is counted.
        if self.columns >= COLUMNS {
            return self.gap();
        }
        // The classes of bytes, told by the characters that they are on a card.
        let Step { card, number } = match byte as char {
            ' ' => self.gap(),
            ',' => self.comma(index),
            '-' => self.minus(index),
            '0'..='9' => self.digit(index, byte - b'0'),
            _ => Err(self.mode.stray(index)),
        }?;
        Ok(Step {
            card: Card {
                columns: self.columns + 1,
                ..card
            },
            number,
        })
    }
}
