// The end of a call that used the first working area alone.
ghost use Rattle.std.specs.Prelude.{◌≡◌};
ghost use Rattle.areas.specs.Areas.{contents};
ghost use Rattle.sheets.specs.Ends.{brought};

use crate::place::Place;
use crate::worktop::Worktop;
use refusals::Refusal;
use rings::Ring;

impl<K: Ring> Worktop<'_, K> {
    // Makes the table of the first working area the rows of a place, unless the pass that made it was refused, and empties that area.
    pub(crate) fn settle(&mut self, res: Place, answer: Result<(), Refusal>) -> Result<(), Refusal>
        ensures answer { result ≡ answer }
        ensures areas { contents self.new.areas ≡ brought (contents self.old.areas) res.area answer }
        ensures format { self.new.format ≡ self.old.format }
    {
        if answer.is_ok() {
            self.areas.copy(res.area, 8);
        }
        self.areas.clear(8);
        answer
    }
}
