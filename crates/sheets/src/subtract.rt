// The difference of two places.
ghost use Rattle.std.specs.Prelude.{◌≡◌};
ghost use Rattle.areas.specs.Areas.{answered};
ghost use Rattle.sheets.specs.States.{kept};
ghost use Rattle.sheets.specs.Desks.{Blank};
ghost use Rattle.sheets.specs.Sheets.{state, lent, rows_lent};
ghost use Rattle.sheets.specs.Running.{running};
ghost use Rattle.sheets.specs.Lent.{kept as kept_rows};
ghost use Rattle.sheets.specs.Calls.{subtracted};
ghost use Rattle.sheets.specs.Promises.{Subtracting};

use crate::place::Place;
use crate::sheet::Sheet;
use crate::worktop::Worktop;
use refusals::Refusal;
use rings::Ring;

impl<K: Ring> Sheet<'_, K> {
    // Makes the first place less the second the rows of a place.
    pub fn subtract(&mut self, res: usize, left: usize, right: usize) -> Result<(), Refusal>
        ensures answer { result ≡ answered (subtracted K.kind (state self.old) res left right) }
        ensures leaves { state self.new ≡ kept (state self.old) res (subtracted K.kind (state self.old) res left right) }
        ensures blank { Blank self.old.desk → Blank self.new.desk }
        ensures long { rows_lent self.new ≡ rows_lent self.old }
        ensures running { running self.new.desk ≡ running self.old.desk }
        ensures lent { lent self.new ≡ kept_rows K.kind (lent self.old) res (subtracted K.kind (state self.old) res left right) }
        ensures algebra { Subtracting K.kind (state self.old) (state self.new) result res left right }
    {
        let res = Place::try_from(res)?;
        let left = Place::try_from(left)?;
        let right = Place::try_from(right)?;
        let desk = &mut self.desk;
        let row = Worktop::minus_one();
        let answer = desk.top.areas.add_scaled(8, left.area, right.area, row);
        desk.top.settle(res, answer)
    }
}
