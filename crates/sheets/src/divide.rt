// The exact quotient of two places. The remainder is in the areas 10 and 11, the quotient in the area 8.
ghost use Rattle.std.specs.Prelude.{◌≡◌, true};
ghost use Rattle.formats.specs.Drafts.{variables};
ghost use Rattle.areas.specs.Areas.{answered};
ghost use Rattle.arithmetic.specs.Dividing.{opposed, leading as leading_quotient, quotient as quotient_rows};
ghost use Rattle.sheets.specs.Worktops as worktops;
ghost use Rattle.sheets.specs.States.{kept};
ghost use Rattle.sheets.specs.Desks.{Blank};
ghost use Rattle.sheets.specs.Sheets.{state, lent, rows_lent};
ghost use Rattle.sheets.specs.Lent.{kept as kept_rows};
ghost use Rattle.sheets.specs.Calls.{divided};
ghost use Rattle.sheets.specs.Ends.{Making};
ghost use Rattle.sheets.specs.Promises.{Dividing};
ghost use Rattle.sheets.specs.Working.{table};

use crate::leading::first_row;
use crate::place::Place;
use crate::product::greatest_of;
use crate::sheet::Sheet;
use crate::worktop::Worktop;
use formats::Format;
use refusals::Refusal;
use rings::{Domain, Ring};
use rows::Row;

// The row whose product with `by` is `row`.
fn quotient_row<K: Domain>(format: &Format, row: Row<K>, by: Row<K>) -> Result<Row<K>, Refusal>
    ensures { result ≡ leading_quotient K.quotient (variables format.now) row by }
{
    let key = format
        .difference(row.key, by.key)
        .ok_or(Refusal::NoQuotient)?;
    let coefficient = row.coefficient.divide(by.coefficient)?;
    Ok(Row { key, coefficient })
}

// The row with the negative of its coefficient.
fn opposite<K: Ring>(row: Row<K>) -> Row<K>
    ensures { result ≡ opposed K.kind row }
{
    Row {
        coefficient: row.coefficient.negative(),
        ..row
    }
}

impl<K: Domain> Worktop<'_, K> {
    // Divides the table in an area by that of another, leading row by leading row, and answers the area of the quotient.
    pub(crate) fn quotient_in(&mut self, left: Place, right: Place) -> Result<usize, Refusal>
        ensures { Making 8 self.old self.new (quotient_rows K.Ring.kind K.quotient (worktops.state self.old).vars (worktops.state self.old).room (table self.old left.area) (table self.old right.area)) result }
    {
        let by = first_row(self.areas.table(right.area)).ok_or(Refusal::ZeroDivisor)?;
        let greatest = greatest_of(&self.format, self.areas.table(right.area));
        self.areas.clear(8);
        self.areas.copy(10, left.area);
        let mut at = 10;
        while let Some(first) = first_row(self.areas.table(at)) {
            let row = quotient_row(&self.format, first, by)?;
            self.areas.push(8, row)?;
            at = self.turn(at, right.area, &greatest, opposite(row))?;
        }
        Ok(8)
    }
}

impl<K: Domain> Sheet<'_, K> {
    // Makes the exact quotient of two places the rows of a place. What that means in algebra rests on nonzero members having a nonzero product.
    pub fn divide(&mut self, res: usize, left: usize, right: usize) -> Result<(), Refusal>
        ensures answer { result ≡ answered (divided K.Ring.kind K.quotient (state self.old) res left right) }
        ensures leaves { state self.new ≡ kept (state self.old) res (divided K.Ring.kind K.quotient (state self.old) res left right) }
        ensures blank { Blank self.old.desk → Blank self.new.desk }
        ensures long { rows_lent self.new ≡ rows_lent self.old }
        ensures lent { Blank self.old.desk → lent self.new ≡ kept_rows K.Ring.kind (lent self.old) res (divided K.Ring.kind K.quotient (state self.old) res left right) }
        ensures algebra { K.Ring.whole ≡ true → Dividing K.Ring.kind (state self.old) (state self.new) result res left right }
    {
        let res = Place::try_from(res)?;
        let left = Place::try_from(left)?;
        let right = Place::try_from(right)?;
        let desk = &mut self.desk;
        let made = desk.top.quotient_in(left, right);
        desk.top.finish(res, made)
    }
}
