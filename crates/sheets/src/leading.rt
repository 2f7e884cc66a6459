// The leading row of a place.
ghost use Rattle.std.specs.Prelude.{◌≡◌};
ghost use Rattle.sheets.specs.Sheets.{state};
ghost use Rattle.sheets.specs.Calls.{row_leading, leading_answer};
ghost use Rattle.sheets.specs.Promises.{LeadingRow};

use crate::place::Place;
use crate::sheet::Sheet;
use refusals::Refusal;
use rings::Ring;
use rows::Row;

// The first row of a table, if there is one.
pub(crate) fn first_row<K: Copy>(rows: &[Row<K>]) -> Option<Row<K>>
    ensures { result ≡ row_leading rows.now }
{
    rows.first().copied()
}

impl<K: Ring> Sheet<'_, K> {
    // The first row of a place; none if the place is empty.
    pub fn leading(&self, place: usize) -> Result<Option<Row<K>>, Refusal>
        ensures answer { result ≡ leading_answer (state self.now) place }
        ensures algebra { LeadingRow K.kind (state self.now) place result }
    {
        let place = Place::try_from(place)?;
        Ok(first_row(self.desk.top.areas.table(place.area)))
    }
}
