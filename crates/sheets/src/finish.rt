// The end of a call.
ghost use Rattle.std.specs.Prelude.{◌≡◌};
ghost use Rattle.areas.specs.Areas.{contents};
ghost use Rattle.sheets.specs.Worktops.{state, Blank};
ghost use Rattle.sheets.specs.Ends.{made_in, ended, finished};

use crate::place::Place;
use crate::worktop::Worktop;
use refusals::Refusal;
use rings::Ring;

// The area where a pass that answered so has left its table.
pub(crate) fn made_in(area: usize, answer: Result<(), Refusal>) -> Result<usize, Refusal>
    ensures { result ≡ made_in area answer }
{
    answer.map(|()| area)
}

impl<K: Ring> Worktop<'_, K> {
    // Empties the working areas.
    pub(crate) fn sweep(&mut self)
        ensures leaves { state self.new ≡ state self.old }
        ensures blank { Blank self.new }
        ensures long { (contents self.new.areas).lent ≡ (contents self.old.areas).lent }
    {
        self.areas.clear(8);
        self.areas.clear(9);
        self.areas.clear(10);
        self.areas.clear(11);
    }

    // Stores the table of the area that a call made its result in, unless it was refused, and empties the working areas.
    pub(crate) fn finish(&mut self, res: Place, made: Result<usize, Refusal>) -> Result<(), Refusal>
        ensures answer { result ≡ ended made }
        ensures leaves { state self.new ≡ finished (state self.old) (contents self.old.areas) res.area made }
        ensures blank { Blank self.new }
        ensures long { (contents self.new.areas).lent ≡ (contents self.old.areas).lent }
    {
        if let Ok(area) = made {
            self.areas.copy(res.area, area);
        }
        self.sweep();
        made.map(|_| ())
    }
}
