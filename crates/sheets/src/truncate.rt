// A place cut to its terms of low degree.
ghost use Rattle.std.specs.Prelude.{◌≡◌, Ok};
ghost use Rattle.formats.specs.Drafts.{variables};
ghost use Rattle.areas.specs.Areas.{answered};
ghost use Rattle.sheets.specs.States.{kept};
ghost use Rattle.sheets.specs.Desks.{Blank};
ghost use Rattle.sheets.specs.Sheets.{state, lent, rows_lent};
ghost use Rattle.sheets.specs.Running.{running};
ghost use Rattle.sheets.specs.Lent.{kept as kept_rows};
ghost use Rattle.sheets.specs.Calls.{truncated};
ghost use Rattle.sheets.specs.Changes.{row_low};
ghost use Rattle.sheets.specs.Promises.{Truncating};

use crate::place::Place;
use crate::sheet::Sheet;
use crate::truncation::Truncation;
use refusals::Refusal;
use rings::Ring;

impl<K: Ring> Sheet<'_, K> {
    // Makes the terms of a place whose first `count` exponents add to at most `most` the rows of a place.
    pub fn truncate(
        &mut self,
        res: usize,
        place: usize,
        count: usize,
        most: u32,
    ) -> Result<(), Refusal>
        ensures answer { result ≡ answered (truncated (state self.old) res place count most) }
        ensures leaves { state self.new ≡ kept (state self.old) res (truncated (state self.old) res place count most) }
        ensures blank { Blank self.old.desk → Blank self.new.desk }
        ensures long { rows_lent self.new ≡ rows_lent self.old }
        ensures running { running self.new.desk ≡ running self.old.desk }
        ensures lent { lent self.new ≡ kept_rows K.kind (lent self.old) res (truncated (state self.old) res place count most) }
        ensures algebra { Truncating K.kind (state self.old) (state self.new) result res place count most }
    {
        let res = Place::try_from(res)?;
        let place = Place::try_from(place)?;
        if count > self.desk.top.format.count() {
            return Err(Refusal::Prefix);
        }
        let format = self.desk.top.format;
        let truncation = Truncation { count, most };
        let desk = &mut self.desk;
        let answer = desk.top.change_rows(
            8,
            place,
            |row|
                ensures { result ≡ Ok (row_low (variables format) truncation.count truncation.most row) }
            { Ok(truncation.keeps(&format, row.key).then_some(row)) },
        );
        desk.top.settle(res, answer)
    }
}
