// The sum of two places.
ghost use Rattle.std.specs.Prelude.{◌≡◌};
ghost use Rattle.areas.specs.Areas.{answered};
ghost use Rattle.sheets.specs.States.{kept};
ghost use Rattle.sheets.specs.Desks.{Blank};
ghost use Rattle.sheets.specs.Sheets.{state, lent, rows_lent};
ghost use Rattle.sheets.specs.Running.{running};
ghost use Rattle.sheets.specs.Lent.{add_answer, add_leaves};
ghost use Rattle.sheets.specs.Sums.{Adding as AddingRows};
ghost use Rattle.sheets.specs.Calls.{added};
ghost use Rattle.sheets.specs.Promises.{Adding};

use crate::place::Place;
use crate::sheet::Sheet;
use refusals::Refusal;
use rings::Ring;

impl<K: Ring> Sheet<'_, K> {
    // Makes the sum of two places the rows of a place.
    pub fn add(&mut self, res: usize, left: usize, right: usize) -> Result<(), Refusal>
        ensures answer { result ≡ answered (added K.kind (state self.old) res left right) }
        ensures leaves { state self.new ≡ kept (state self.old) res (added K.kind (state self.old) res left right) }
        ensures told { result ≡ answered (add_answer K.kind (lent self.old) res left right) }
        ensures blank { Blank self.old.desk → Blank self.new.desk }
        ensures long { rows_lent self.new ≡ rows_lent self.old }
        ensures running { running self.new.desk ≡ running self.old.desk }
        ensures lent { lent self.new ≡ add_leaves K.kind (lent self.old) res left right }
        ensures sums { AddingRows K.kind (lent self.old) (lent self.new) res left right result }
        ensures algebra { Adding K.kind (state self.old) (state self.new) result res left right }
    {
        let res = Place::try_from(res)?;
        let left = Place::try_from(left)?;
        let right = Place::try_from(right)?;
        let desk = &mut self.desk;
        let answer = desk.top.areas.add(8, left.area, right.area);
        desk.top.settle(res, answer)
    }
}
