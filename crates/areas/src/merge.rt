// The sum of two tables, in one pass over both; the second one times a factor, if there is one.
ghost use Rattle.std.specs.Prelude.{◌≡◌, ◌+◌, ◌^◌, ◌<◌, ltb, length, if◌then◌else◌, None as Nothing, slice_set};
ghost use Rattle.rows.specs.Tables.{limited, counted};
ghost use Rattle.areas.specs.Merging.{giving, Filled};

use crate::step::Merge;
use refusals::Refusal;
use rings::Ring;
use rows::Row;

// Writes a row as number `count`, if there is room for it.
fn put_row<K: Copy>(out: &mut [Row<K>], count: usize, row: Row<K>)
    ensures { out.new ≡ (if ltb count (length out.old) then slice_set out.old count row else out.old) }
{
    if count < out.len() {
        out[count] = row;
    }
}

// Writes the sum of two tables, the second one times the factor, from the start of `out` on, and answers how many rows it has.
// Not inlined: among its callers' values the loop's own do not stay in registers, and a product takes 1.2 times as long.
#[inline(never)]
pub(crate) fn merge_rows<K: Ring>(
    left: &[Row<K>],
    right: &[Row<K>],
    factor: Option<Row<K>>,
    out: &mut [Row<K>],
) -> Result<usize, Refusal>
    requires small { length left.now + length right.now < 2 ^ 64 }
    ensures answer { result ≡ counted (limited (length out.old) (giving K.kind factor Nothing left.now right.now)) }
    ensures filled { Filled (limited (length out.old) (giving K.kind factor Nothing left.now right.now)) out.old out.new }
{
    let mut merge = Merge {
        left,
        right,
        factor,
        head: None,
    };
    let mut count = 0;
    while merge.is_unfinished() {
        if let Some(row) = merge.step()? {
            put_row(out, count, row);
            count += 1;
        }
    }
    if count > out.len() {
        return Err(Refusal::Rows);
    }
    Ok(count)
}
