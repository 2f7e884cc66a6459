// The card of a row.
ghost use Rattle.std.specs.Prelude.{◌≤◌, length};
ghost use Rattle.formats.specs.Drafts.{variables};
ghost use Rattle.texts.specs.Decks.{card};

use crate::exponents::put_exponents;
use crate::figures::put_figures;
use crate::sink::Sink;
use formats::Format;
use rings::Ring;
use rows::Row;

pub(crate) fn put_card<K: Ring, S: Sink>(sink: &mut S, format: &Format, row: Row<K>)
    ensures puts { S.puts sink.old (card K.kind (variables format.now) row) sink.new }
    ensures few { length (card K.kind (variables format.now) row) ≤ 213 }
{
    let exponents = format.unpack(row.key);
    put_figures(sink, row.coefficient);
    sink.put(b" ");
    put_exponents(sink, &exponents[..format.count()]);
    sink.put(b"\n");
}
