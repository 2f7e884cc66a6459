// The truncated product of two places.
ghost use Rattle.std.specs.Prelude.{◌≡◌};
ghost use Rattle.areas.specs.Areas.{answered};
ghost use Rattle.arithmetic.specs.Truncating.{product_truncated};
ghost use Rattle.sheets.specs.Worktops as worktops;
ghost use Rattle.sheets.specs.States.{kept};
ghost use Rattle.sheets.specs.Desks.{Blank};
ghost use Rattle.sheets.specs.Sheets.{state, lent, rows_lent};
ghost use Rattle.sheets.specs.Lent.{kept as kept_rows};
ghost use Rattle.sheets.specs.Calls.{multiplied_truncated};
ghost use Rattle.sheets.specs.Ends.{Making};
ghost use Rattle.sheets.specs.Promises.{MultiplyingTruncated};
ghost use Rattle.sheets.specs.Working.{table};

use crate::place::Place;
use crate::product::greatest_of;
use crate::sheet::Sheet;
use crate::truncation::Truncation;
use crate::worktop::Worktop;
use refusals::Refusal;
use rings::Ring;

impl<K: Ring> Worktop<'_, K> {
    // Multiplies the tables in two areas, row by row of the second, without the pairs of rows whose product the truncation does not keep, and answers the area of the product.
    pub(crate) fn low_product_in(
        &mut self,
        left: Place,
        right: Place,
        truncation: Truncation,
    ) -> Result<usize, Refusal>
        ensures { Making 9 self.old self.new (product_truncated K.kind (worktops.state self.old).vars (worktops.state self.old).room truncation.count truncation.most (table self.old left.area) (table self.old right.area)) result }
    {
        self.areas.clear(10);
        let mut at = 10;
        // By index: the rows of all areas are lent together, and the body writes to them.
        for i in 0..self.areas.table(right.area).len() {
            let row = self.areas.table(right.area)[i];
            self.gather(left, row, truncation);
            let greatest = greatest_of(&self.format, self.areas.table(9));
            at = self.turn(at, 9, &greatest, row)?;
        }
        Ok(at)
    }
}

impl<K: Ring> Sheet<'_, K> {
    // Makes the terms of a product of two places whose first `count` exponents add to at most `most` the rows of a place.
    pub fn multiply_truncated(
        &mut self,
        res: usize,
        left: usize,
        right: usize,
        count: usize,
        most: u32,
    ) -> Result<(), Refusal>
        ensures answer { result ≡ answered (multiplied_truncated K.kind (state self.old) res left right count most) }
        ensures leaves { state self.new ≡ kept (state self.old) res (multiplied_truncated K.kind (state self.old) res left right count most) }
        ensures blank { Blank self.old.desk → Blank self.new.desk }
        ensures long { rows_lent self.new ≡ rows_lent self.old }
        ensures lent { Blank self.old.desk → lent self.new ≡ kept_rows K.kind (lent self.old) res (multiplied_truncated K.kind (state self.old) res left right count most) }
        ensures algebra { MultiplyingTruncated K.kind (state self.old) (state self.new) result res left right count most }
    {
        let res = Place::try_from(res)?;
        let left = Place::try_from(left)?;
        let right = Place::try_from(right)?;
        if count > self.desk.top.format.count() {
            return Err(Refusal::Prefix);
        }
        let desk = &mut self.desk;
        let made = desk
            .top
            .low_product_in(left, right, Truncation { count, most });
        desk.top.finish(res, made)
    }
}
