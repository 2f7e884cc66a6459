// One more row.
ghost use Rattle.std.specs.Prelude.{◌≡◌};
ghost use Rattle.areas.specs.Areas.{contents, answered, kept, pushed};

use crate::twelve::{AREAS, Areas};
use refusals::Refusal;
use rings::Ring;
use rows::Row;

impl<K: Ring> Areas<'_, K> {
    // Writes a row after the table in an area.
    pub fn push(&mut self, area: usize, row: Row<K>) -> Result<(), Refusal>
        ensures answer { result ≡ answered (pushed (contents self.old) area row) }
        ensures leaves { contents self.new ≡ kept (contents self.old) area (pushed (contents self.old) area row) }
    {
        if area >= AREAS {
            return Err(Refusal::Place);
        }
        let room = self.room();
        let count = self.count(area);
        if count >= room {
            return Err(Refusal::Rows);
        }
        self.rows[area * room + count] = row;
        self.counts[area] = count + 1;
        Ok(())
    }
}
