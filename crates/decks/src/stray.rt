// A byte that may not stand where it does.
ghost use Rattle.std.specs.Prelude.{◌≡◌, Err};
ghost use Rattle.texts.specs.Numbers as numbers;
ghost use Rattle.texts.specs.Numbers.{on_other};
ghost use Rattle.decks.specs.Shown.{fault_of, mode_of};

use crate::card::Mode;
use crate::fault::Fault;
use refusals::Refusal;

impl Mode {
    // The fault at that byte, or at the minus before it.
    pub(crate) fn stray(self, index: usize) -> Fault
        ensures { (c : numbers.Card) → Err (fault_of result) ≡ on_other (mode_of self) c index }
    {
        let byte = match self {
            Mode::Sign(minus) => minus,
            _ => index,
        };
        Fault::new(Refusal::Byte, byte)
    }
}
