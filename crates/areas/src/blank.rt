// Blanking rows: key 0, coefficient zero.
ghost use Rattle.std.specs.Prelude.{◌≡◌, length, replicate};
ghost use Rattle.rows.specs.Tables.{blank};

use rings::Ring;
use rows::Row;

// Blanks each of the rows.
pub(crate) fn blank_rows<K: Ring>(rows: &mut [Row<K>])
    ensures { rows.new ≡ replicate (length rows.old) (blank K.kind) }
{
    rows.fill_with(|| Row::blank());
}
