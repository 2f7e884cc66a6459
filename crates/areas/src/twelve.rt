// The areas themselves.
ghost use Rattle.areas.specs.Shares.{Tidy};

use rings::Ring;
use rows::Row;

// How many areas there are.
pub(crate) const AREAS: usize = 12;

// The most rows that an area has, however many are lent.
pub(crate) const MOST_ROWS: usize = 4096;

// The lent rows are divided by index into twelve areas of equal size. An area's table is the first of its rows, as many as its count says. Every lent row that is no row of a table is blank.
#[derive(Drop)]
pub struct Areas<'a, K: Ring> {
    pub(crate) rows: &'a mut [Row<K>],
    // beside the rows, since there is no heap: the rows are lent, and an area is a stretch of them
    pub(crate) counts: [usize; AREAS],
    pub ghost tidy: { Tidy K.kind rows.now counts },
}
