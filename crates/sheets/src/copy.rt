// A copy of a place.
ghost use Rattle.std.specs.Prelude.{◌≡◌};
ghost use Rattle.areas.specs.Areas.{answered};
ghost use Rattle.sheets.specs.States.{kept};
ghost use Rattle.sheets.specs.Desks.{Blank};
ghost use Rattle.sheets.specs.Sheets.{state, lent, rows_lent};
ghost use Rattle.sheets.specs.Running.{running};
ghost use Rattle.sheets.specs.Lent.{kept as kept_rows};
ghost use Rattle.sheets.specs.Calls.{copied};
ghost use Rattle.sheets.specs.Promises.{Copying};

use crate::place::Place;
use crate::sheet::Sheet;
use refusals::Refusal;
use rings::Ring;

impl<K: Ring> Sheet<'_, K> {
    // Makes the rows of a place those of another.
    pub fn copy(&mut self, res: usize, place: usize) -> Result<(), Refusal>
        ensures answer { result ≡ answered (copied (state self.old) res place) }
        ensures leaves { state self.new ≡ kept (state self.old) res (copied (state self.old) res place) }
        ensures blank { Blank self.old.desk → Blank self.new.desk }
        ensures long { rows_lent self.new ≡ rows_lent self.old }
        ensures running { running self.new.desk ≡ running self.old.desk }
        ensures lent { lent self.new ≡ kept_rows K.kind (lent self.old) res (copied (state self.old) res place) }
        ensures algebra { Copying K.kind (state self.old) (state self.new) result res place }
    {
        let res = Place::try_from(res)?;
        let place = Place::try_from(place)?;
        let desk = &mut self.desk;
        desk.top.areas.copy(res.area, place.area);
        Ok(())
    }
}
