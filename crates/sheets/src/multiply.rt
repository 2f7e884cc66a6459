// The product of two places.
ghost use Rattle.std.specs.Prelude.{◌≡◌};
ghost use Rattle.areas.specs.Areas.{answered};
ghost use Rattle.sheets.specs.States.{kept};
ghost use Rattle.sheets.specs.Desks.{Blank};
ghost use Rattle.sheets.specs.Sheets.{state, lent, rows_lent};
ghost use Rattle.sheets.specs.Lent.{kept as kept_rows};
ghost use Rattle.sheets.specs.Calls.{multiplied};
ghost use Rattle.sheets.specs.Promises.{Multiplying};

use crate::place::Place;
use crate::sheet::Sheet;
use refusals::Refusal;
use rings::Ring;

impl<K: Ring> Sheet<'_, K> {
    // Makes the product of two places the rows of a place.
    pub fn multiply(&mut self, res: usize, left: usize, right: usize) -> Result<(), Refusal>
        ensures answer { result ≡ answered (multiplied K.kind (state self.old) res left right) }
        ensures leaves { state self.new ≡ kept (state self.old) res (multiplied K.kind (state self.old) res left right) }
        ensures blank { Blank self.old.desk → Blank self.new.desk }
        ensures long { rows_lent self.new ≡ rows_lent self.old }
        ensures lent { Blank self.old.desk → lent self.new ≡ kept_rows K.kind (lent self.old) res (multiplied K.kind (state self.old) res left right) }
        ensures algebra { Multiplying K.kind (state self.old) (state self.new) result res left right }
    {
        let res = Place::try_from(res)?;
        let left = Place::try_from(left)?;
        let right = Place::try_from(right)?;
        let desk = &mut self.desk;
        let made = desk.top.product_in(left.area, right.area);
        desk.top.finish(res, made)
    }
}
