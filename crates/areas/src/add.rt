// Sums of tables.
ghost use Rattle.std.specs.Prelude.{◌≡◌};
ghost use Rattle.areas.specs.Areas.{contents, storing, rows_of, answered, added, scaling};

use crate::twelve::Areas;
use refusals::Refusal;
use rings::Ring;
use rows::Row;

impl<K: Ring> Areas<'_, K> {
    // Leaves the sum of the tables in two areas in a third. Refused, that area is empty.
    pub fn add(&mut self, to: usize, left: usize, right: usize) -> Result<(), Refusal>
        ensures answer { result ≡ answered (added K.kind (contents self.old) to left right) }
        ensures leaves { contents self.new ≡ storing (contents self.old) to (rows_of (added K.kind (contents self.old) to left right)) }
    {
        self.combine(to, left, right, None)
    }

    // Leaves the table of one area plus that of another times a row in a third. Refused, that area is empty.
    pub fn add_scaled(
        &mut self,
        to: usize,
        left: usize,
        right: usize,
        row: Row<K>,
    ) -> Result<(), Refusal>
        ensures answer { result ≡ answered (scaling K.kind (contents self.old) to left right row) }
        ensures leaves { contents self.new ≡ storing (contents self.old) to (rows_of (scaling K.kind (contents self.old) to left right row)) }
    {
        self.combine(to, left, right, Some(row))
    }
}
