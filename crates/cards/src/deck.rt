// The deck of a table.
ghost use Rattle.std.specs.Prelude.{◌+◌, ◌*◌, ◌≤◌, length};
ghost use Rattle.formats.specs.Drafts.{variables};
ghost use Rattle.texts.specs.Decks.{deck};

use crate::card::put_card;
use crate::figures::put_figures;
use crate::sink::Sink;
use formats::Format;
use rings::Ring;
use rows::Row;

pub(crate) fn put_deck<K: Ring, S: Sink>(sink: &mut S, format: &Format, rows: &[Row<K>])
    ensures puts { S.puts sink.old (deck K.kind (variables format.now) rows.now) sink.new }
    ensures few { length (deck K.kind (variables format.now) rows.now) ≤ 44 + 213 * length rows.now }
{
    for row in rows {
        put_card(sink, format, *row);
    }
    put_figures(sink, K::zero());
    sink.put(b"\n");
}
