// Understood zeros.
ghost use Rattle.std.specs.Prelude.{◌≡◌};
ghost use Rattle.decks.specs.Steps.{understood};

use crate::card::Card;
use crate::number::Number;

impl Card {
    // The zero that is understood at a comma, unless a number stands before it.
    pub(crate) fn zero(self, comma: Option<usize>) -> Option<Number>
        ensures { result ≡ understood self.some comma }
    {
        if self.some {
            None
        } else {
            comma.map(|first| Number { value: 0, first })
        }
    }
}
