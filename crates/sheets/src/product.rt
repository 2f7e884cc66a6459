// Products, in the working areas 10 and 11.
ghost use Rattle.std.specs.Prelude.{◌≡◌, ◌-◌, ◌<◌, ◌≤◌, replicate};
ghost use Rattle.formats.specs.Drafts.{variables};
ghost use Rattle.areas.specs.Areas.{answered};
ghost use Rattle.arithmetic.specs.Multiplying.{product};
ghost use Rattle.sheets.specs.Worktops.{state};
ghost use Rattle.sheets.specs.Ends.{made_in, Making};
ghost use Rattle.sheets.specs.Working.{highest, turned, table};

use crate::finish::made_in;
use crate::worktop::Worktop;
use formats::Format;
use refusals::Refusal;
use rings::Ring;
use rows::Row;

// At each variable the greatest exponent in the rows.
pub(crate) fn greatest_of<K: Copy>(format: &Format, rows: &[Row<K>]) -> [u16; 8]
    ensures { result ≡ highest (variables format.now) (replicate 8 0) rows.now }
{
    let mut greatest = [0u16; 8];
    for row in rows {
        greatest = format.greatest(&greatest, row.key);
    }
    greatest
}

impl<K: Ring> Worktop<'_, K> {
    // Adds the table in `factors`, whose greatest exponents are `greatest`, times a row to the running table in the area `at`, and answers the area of the new one.
    pub(crate) fn turn(
        &mut self,
        at: usize,
        factors: usize,
        greatest: &[u16; 8],
        row: Row<K>,
    ) -> Result<usize, Refusal>
        requires low { 10 ≤ at }
        requires high { at ≤ 11 }
        requires factors { factors < 10 }
        ensures makes { Making 10 self.old self.new (turned K.kind (state self.old).vars (state self.old).room greatest.now (table self.old at) (table self.old factors) row) result }
        ensures area { result ≡ made_in (21 - at) (answered (turned K.kind (state self.old).vars (state self.old).room greatest.now (table self.old at) (table self.old factors) row)) }
    {
        if !self.format.allows(greatest, row.key) {
            return Err(Refusal::Exponent);
        }
        let to = 21 - at;
        made_in(to, self.areas.add_scaled(to, at, factors, row))
    }

    // Multiplies the tables in two areas, row by row of the second, and answers the area of the product.
    pub(crate) fn product_in(&mut self, left: usize, right: usize) -> Result<usize, Refusal>
        requires left { left < 10 }
        requires right { right < 10 }
        ensures { Making 10 self.old self.new (product K.kind (state self.old).vars (state self.old).room (table self.old left) (table self.old right)) result }
    {
        let greatest = greatest_of(&self.format, self.areas.table(left));
        self.areas.clear(10);
        let mut at = 10;
        // By index: the rows of all areas are lent together, and the body writes to them.
        for i in 0..self.areas.table(right).len() {
            let row = self.areas.table(right)[i];
            at = self.turn(at, left, &greatest, row)?;
        }
        Ok(at)
    }
}
