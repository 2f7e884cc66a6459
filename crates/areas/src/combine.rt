// A table plus another one, or a multiple of it.
ghost use Rattle.std.specs.Prelude.{◌≡◌, ◌+◌, ◌-◌, ◌≤◌, List, ◌++◌, length, None as Nothing};
ghost use Rattle.rows.specs.Tables.{limited, counted};
ghost use Rattle.rows.specs.declared.Row.{Row as RowOf};
ghost use Rattle.areas.specs.Areas.{contents, storing, rows_of, answered, apart as apart_from};
ghost use Rattle.areas.specs.Merging.{spanned, giving, combined, IsBeside, Written};

use crate::merge::merge_rows;
use crate::twelve::{AREAS, Areas};
use refusals::Refusal;
use rings::Ring;
use rows::Row;
use std::ops::Range;

// Whether the numbers are those of areas, and the first is neither of the others.
fn apart(to: usize, left: usize, right: usize) -> bool
    ensures { result ≡ apart_from to left right }
{
    (to < AREAS && (left < AREAS && right < AREAS)) && (to != left && to != right)
}

// The rows of a span that lies before or after a gap, by the rows on both sides.
fn beside<'a, K>(
    before: &'a [Row<K>],
    after: &'a [Row<K>],
    gap: &Range<usize>,
    span: Range<usize>,
) -> &'a [Row<K>]
    requires start { gap.now.start ≡ length before.now }
    requires beside { IsBeside span gap.now (gap.now.end + length after.now) }
    ensures { (rows : List (RowOf K)) → length before.now + length rows ≡ gap.now.end → result.now ≡ spanned (before.now ++ (rows ++ after.now)) span }
{
    if span.end <= gap.start {
        &before[span]
    } else {
        &after[span.start - gap.end..span.end - gap.end]
    }
}

// Writes the sum of the rows in two spans, those of the second times the factor, from the start of an area on, and answers how many rows it has.
fn merge_spans<K: Ring>(
    rows: &mut [Row<K>],
    area: Range<usize>,
    left: Range<usize>,
    right: Range<usize>,
    factor: Option<Row<K>>,
) -> Result<usize, Refusal>
    requires order { area.start ≤ area.end }
    requires within { area.end ≤ length rows.old }
    requires left { IsBeside left area (length rows.old) }
    requires right { IsBeside right area (length rows.old) }
    ensures answer { result ≡ counted (limited (area.end - area.start) (giving K.kind factor Nothing (spanned rows.old left) (spanned rows.old right))) }
    ensures written { Written (limited (area.end - area.start) (giving K.kind factor Nothing (spanned rows.old left) (spanned rows.old right))) rows.old area rows.new }
{
    let (before, rest) = rows.split_at_mut(area.start);
    let (out, after) = rest.split_at_mut(area.end - area.start);
    let left = beside(before, after, &area, left);
    let right = beside(before, after, &area, right);
    merge_rows(left, right, factor, out)
}

impl<K: Ring> Areas<'_, K> {
    // Leaves the table of one area plus that of another, times the factor if there is one, in a third. Refused, that area is empty.
    pub(crate) fn combine(
        &mut self,
        to: usize,
        left: usize,
        right: usize,
        factor: Option<Row<K>>,
    ) -> Result<(), Refusal>
        ensures answer { result ≡ answered (combined K.kind (contents self.old) to left right factor) }
        ensures leaves { contents self.new ≡ storing (contents self.old) to (rows_of (combined K.kind (contents self.old) to left right factor)) }
    {
        if !apart(to, left, right) {
            self.clear(to);
            return Err(Refusal::Place);
        }
        let room = self.room();
        let at = to * room;
        let old = self.count(to);
        let first = self.span(left);
        let second = self.span(right);
        let merged = merge_spans(self.rows, at..at + room, first, second, factor);
        let count = merged.unwrap_or(0);
        // a refused merge has written somewhere in the area
        let used = if merged.is_ok() { old } else { room };
        self.counts[to] = used.max(count);
        self.settle(to, count);
        merged.map(|_| ())
    }
}
