// Shortening a table.
ghost use Rattle.std.specs.Prelude.{◌≡◌, ◌<◌, ◌≤◌, take};
ghost use Rattle.areas.specs.Areas.{contents, storing, count as counted};

use crate::blank::blank_rows;
use crate::twelve::Areas;
use rings::Ring;

impl<K: Ring> Areas<'_, K> {
    // Keeps the first `count` rows of the table in an area, and blanks its others.
    pub(crate) fn settle(&mut self, area: usize, count: usize)
        requires area { area < 12 }
        requires count { count ≤ counted self.old area }
        ensures { contents self.new ≡ storing (contents self.old) area (take count ((contents self.old).tables area)) }
    {
        let table = self.span(area);
        blank_rows(&mut self.rows[table.start + count..table.end]);
        self.counts[area] = count;
    }
}
