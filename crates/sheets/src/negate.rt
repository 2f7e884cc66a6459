// The negative of a place.
ghost use Rattle.std.specs.Prelude.{◌≡◌};
ghost use Rattle.arithmetic.specs.Negating.{minus_one};
ghost use Rattle.areas.specs.Areas.{answered};
ghost use Rattle.sheets.specs.Worktops as worktops;
ghost use Rattle.sheets.specs.States.{kept};
ghost use Rattle.sheets.specs.Desks.{Blank};
ghost use Rattle.sheets.specs.Sheets.{state, lent, rows_lent};
ghost use Rattle.sheets.specs.Lent.{kept as kept_rows};
ghost use Rattle.sheets.specs.Calls.{negated};
ghost use Rattle.sheets.specs.Promises.{Negating};

use crate::finish::made_in;
use crate::place::Place;
use crate::sheet::Sheet;
use crate::worktop::Worktop;
use refusals::Refusal;
use rings::Ring;
use rows::Row;

impl<K: Ring> Worktop<'_, K> {
    // The row with which a table is multiplied to give its negative.
    pub(crate) fn minus_one() -> Row<K>
        ensures { result ≡ minus_one K.kind }
    {
        Row {
            key: 0,
            coefficient: K::one().negative(),
        }
    }
}

impl<K: Ring> Sheet<'_, K> {
    // Makes the negative of a place the rows of a place.
    pub fn negate(&mut self, res: usize, place: usize) -> Result<(), Refusal>
        ensures answer { result ≡ answered (negated K.kind (state self.old) res place) }
        ensures leaves { state self.new ≡ kept (state self.old) res (negated K.kind (state self.old) res place) }
        ensures blank { Blank self.old.desk → Blank self.new.desk }
        ensures long { rows_lent self.new ≡ rows_lent self.old }
        ensures lent { Blank self.old.desk → lent self.new ≡ kept_rows K.kind (lent self.old) res (negated K.kind (state self.old) res place) }
        ensures algebra { Negating K.kind (state self.old) (state self.new) result res place }
    {
        let res = Place::try_from(res)?;
        let place = Place::try_from(place)?;
        let desk = &mut self.desk;
        desk.top.areas.clear(9);
        let answer = desk
            .top
            .areas
            .add_scaled(8, 9, place.area, Worktop::minus_one());
        desk.top.finish(res, made_in(8, answer))
    }
}
