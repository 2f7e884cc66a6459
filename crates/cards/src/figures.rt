// The figures of a coefficient, joined by commas.
ghost use Rattle.std.specs.Prelude.{◌≤◌, length};
ghost use Rattle.texts.specs.Decks.{figures};

use crate::sink::Sink;
use rings::Ring;

pub(crate) fn put_figures<K: Ring, S: Sink>(sink: &mut S, value: K)
    ensures puts { S.puts sink.old (figures K.kind value) sink.new }
    ensures few { length (figures K.kind value) ≤ 43 }
{
    let (first, second) = value.figures();
    sink.put_figure(first);
    // The ring tells by a number how many figures it has; its second is 0 and not missing where it has one.
    if K::figure_count() != 1 {
        sink.put(b",");
        sink.put_figure(second);
    }
}
