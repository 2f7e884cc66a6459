// Whether two places are equal.
ghost use Rattle.std.specs.Prelude.{◌≡◌};
ghost use Rattle.sheets.specs.Sheets.{state};
ghost use Rattle.sheets.specs.Calls.{same_rows, equal_answer};
ghost use Rattle.sheets.specs.Promises.{Comparing};

use crate::place::Place;
use crate::sheet::Sheet;
use refusals::Refusal;
use rings::Ring;
use rows::Row;

// Whether two tables have the same rows.
fn same_rows<K: Ring>(left: &[Row<K>], right: &[Row<K>]) -> bool
    ensures { result ≡ same_rows K.kind left.now right.now }
{
    left.len() == right.len()
        && left.iter().zip(right).all(|(a, b)| a.key == b.key
            && a.coefficient.equals(b.coefficient))
}

impl<K: Ring> Sheet<'_, K> {
    // Whether two places have the same rows.
    pub fn equal(&self, left: usize, right: usize) -> Result<bool, Refusal>
        ensures answer { result ≡ equal_answer K.kind (state self.now) left right }
        ensures algebra { Comparing K.kind (state self.now) left right result }
    {
        let left = Place::try_from(left)?;
        let right = Place::try_from(right)?;
        Ok(same_rows(
            self.desk.top.areas.table(left.area),
            self.desk.top.areas.table(right.area),
        ))
    }
}
