// The rows of a place that a truncation keeps the products of with a row.
ghost use Rattle.std.specs.Prelude.{◌≡◌};
ghost use Rattle.arithmetic.specs.Truncating.{near};
ghost use Rattle.sheets.specs.Worktops.{state};
ghost use Rattle.sheets.specs.Working.{table, but, Kept};

use crate::place::Place;
use crate::truncation::Truncation;
use crate::worktop::Worktop;
use rings::Ring;
use rows::Row;

impl<K: Ring> Worktop<'_, K> {
    // Makes the rows of a place whose products with a row the truncation keeps the table of the area 9.
    pub(crate) fn gather(&mut self, left: Place, row: Row<K>, truncation: Truncation)
        ensures kept { Kept (but 9) self.old self.new }
        ensures rows { table self.new 9 ≡ near (state self.old).vars truncation.count truncation.most (table self.old left.area) row }
    {
        let format = self.format;
        let degree = format.degree(row.key, truncation.count);
        // None of them is refused: an area has room for the rows of another.
        let _ = self.change_rows(9, left, |other| {
            Ok(
                truncation
                    .keeps_product(&format, other.key, degree)
                    .then_some(other),
            )
        });
    }
}
