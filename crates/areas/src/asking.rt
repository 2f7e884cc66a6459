// What can be asked of areas.
ghost use Rattle.std.specs.Prelude.{◌≡◌, ◌+◌, ◌*◌, ◌<◌};
ghost use Rattle.areas.specs.Areas.{contents, lent_room, count};

use crate::open::capacity_of;
use crate::twelve::{AREAS, Areas};
use rings::Ring;
use rows::Row;
use std::ops::Range;

impl<K: Ring> Areas<'_, K> {
    // The rows of one area: the most that a table can have.
    pub fn room(&self) -> usize
        ensures { result ≡ (contents self.now).room }
    {
        capacity_of(self.rows.len())
    }

    // The table in an area; an empty one, if there is no such area.
    pub fn table(&self, area: usize) -> &[Row<K>]
        ensures { result.now ≡ (contents self.now).tables area }
    {
        if area < AREAS {
            &self.rows[self.span(area)]
        } else {
            &[]
        }
    }

    // How many rows the table in an area has.
    pub(crate) fn count(&self, area: usize) -> usize
        requires { area < 12 }
        ensures { result ≡ count self.now area }
    {
        self.counts[area].min(self.room())
    }

    // Where those rows lie.
    pub(crate) fn span(&self, area: usize) -> Range<usize>
        requires { area < 12 }
        ensures { result ≡ record { start = area * lent_room self.now; end = area * lent_room self.now + count self.now area } }
    {
        let start = area * self.room();
        start..start + self.count(area)
    }
}
