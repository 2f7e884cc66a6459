// Opening areas.
ghost use Rattle.std.specs.Prelude.{◌≡◌, length};
ghost use Rattle.areas.specs.Shares.{capacity};
ghost use Rattle.areas.specs.Areas.{contents, fresh};

use crate::blank::blank_rows;
use crate::twelve::{AREAS, Areas, MOST_ROWS};
use rings::Ring;
use rows::Row;

// The rows of one area, in a slice of so many rows.
pub(crate) fn capacity_of(len: usize) -> usize
    ensures { result ≡ capacity len }
{
    (len / AREAS).min(MOST_ROWS)
}

impl<'a, K: Ring> Areas<'a, K> {
    // Areas on the rows, each with an empty table. What the rows held is gone.
    pub fn open(rows: &'a mut [Row<K>]) -> Areas<'a, K>
        ensures holds { contents result ≡ fresh (length rows.old) }
    {
        blank_rows(rows);
        Areas {
            rows,
            counts: [0; AREAS],
        }
    }
}
