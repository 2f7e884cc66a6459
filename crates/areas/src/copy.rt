// Copying a table from one area to another.
ghost use Rattle.std.specs.Prelude.{◌≡◌};
ghost use Rattle.areas.specs.Areas.{contents, storing};

use crate::twelve::{AREAS, Areas};
use rings::Ring;

impl<K: Ring> Areas<'_, K> {
    // Makes the table in one area that of another too.
    pub fn copy(&mut self, to: usize, from: usize)
        ensures leaves { contents self.new ≡ storing (contents self.old) to ((contents self.old).tables from) }
    {
        if from >= AREAS {
            self.clear(to);
            return;
        }
        if to >= AREAS || to == from {
            return;
        }
        let room = self.room();
        let count = self.count(from);
        self.counts[to] = self.count(to).max(count);
        self.rows
            .copy_within(from * room..from * room + count, to * room);
        self.settle(to, count);
    }
}
