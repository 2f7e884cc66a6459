// A constant.
ghost use Rattle.std.specs.Prelude.{◌≡◌};
ghost use Rattle.areas.specs.Areas.{answered};
ghost use Rattle.sheets.specs.States.{kept};
ghost use Rattle.sheets.specs.Desks.{Blank};
ghost use Rattle.sheets.specs.Sheets.{state, lent, rows_lent};
ghost use Rattle.sheets.specs.Running.{running};
ghost use Rattle.sheets.specs.Lent.{constant_answer, kept as kept_rows};
ghost use Rattle.sheets.specs.Calls.{constant};
ghost use Rattle.sheets.specs.Promises.{Constant};

use crate::place::Place;
use crate::sheet::Sheet;
use refusals::Refusal;
use rings::Ring;
use rows::Row;

impl<K: Ring> Sheet<'_, K> {
    // Makes the constant that two figures write the rows of a place.
    pub fn constant(&mut self, res: usize, first: i64, second: i64) -> Result<(), Refusal>
        ensures answer { result ≡ answered (constant K.kind (state self.old) res first second) }
        ensures leaves { state self.new ≡ kept (state self.old) res (constant K.kind (state self.old) res first second) }
        ensures told { result ≡ answered (constant_answer K.kind (lent self.old) res first second) }
        ensures blank { Blank self.old.desk → Blank self.new.desk }
        ensures long { rows_lent self.new ≡ rows_lent self.old }
        ensures running { running self.new.desk ≡ running self.old.desk }
        ensures lent { lent self.new ≡ kept_rows K.kind (lent self.old) res (constant_answer K.kind (lent self.old) res first second) }
        ensures algebra { Constant K.kind (state self.old) (state self.new) result res first second }
    {
        let res = Place::try_from(res)?;
        let coefficient = K::from_figures(first, second)?;
        let desk = &mut self.desk;
        if coefficient.is_zero() {
            desk.top.areas.clear(res.area);
            return Ok(());
        }
        desk.top.single(res, 0, coefficient)
    }
}
