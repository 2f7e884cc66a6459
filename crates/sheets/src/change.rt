// Making rows of those of a place, each by itself.
ghost use Rattle.std.specs.Prelude.{◌≡◌, ◌<◌, ◌≤◌};
ghost use Rattle.sheets.specs.Changes.{Changes};
ghost use Rattle.sheets.specs.Ends.{made_in, made_of};
ghost use Rattle.sheets.specs.Working.{but, Kept, table};
ghost use Rattle.areas.specs.Areas.{contents};

use crate::place::Place;
use crate::worktop::Worktop;
use refusals::Refusal;
use rings::Ring;
use rows::Row;

impl<K: Ring> Worktop<'_, K> {
    // Makes what a closure makes of the rows of a place, each by itself, the table of a working area.
    pub(crate) fn change_rows<F: Fn(Row<K>) -> Result<Option<Row<K>>, Refusal>>(
        &mut self,
        to: usize,
        from: Place,
        change: F,
    ) -> Result<(), Refusal>
        requires callable { F.IsAlwaysCallable change }
        requires low { 8 ≤ to }
        requires high { to < 12 }
        ensures kept { Kept (but to) self.old self.new }
        ensures made { Changes (F.post change) (table self.old from.area) (made_of (contents self.new.areas) (made_in to result)) }
    {
        self.areas.clear(to);
        // By index: the rows of all areas are lent together, and the body writes to them.
        for i in 0..self.areas.table(from.area).len() {
            let row = self.areas.table(from.area)[i];
            if let Some(new) = change(row)? {
                self.areas.push(to, new)?;
            }
        }
        Ok(())
    }
}
