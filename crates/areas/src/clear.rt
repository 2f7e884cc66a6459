// Emptying an area.
ghost use Rattle.std.specs.Prelude.{◌≡◌, []};
ghost use Rattle.areas.specs.Areas.{contents, storing};

use crate::twelve::{AREAS, Areas};
use rings::Ring;

impl<K: Ring> Areas<'_, K> {
    // Makes the table in an area empty, if there is such an area.
    pub fn clear(&mut self, area: usize)
        ensures leaves { contents self.new ≡ storing (contents self.old) area [] }
    {
        // most working areas are empty already when a call empties them
        if area < AREAS && self.counts[area] > 0 {
            self.settle(area, 0);
        }
    }
}
