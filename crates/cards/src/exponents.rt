// Exponents, joined by commas.
ghost use Rattle.std.specs.Prelude.{◌≤◌, length};
ghost use Rattle.texts.specs.Decks.{exponents};

use crate::sink::Sink;

pub(crate) fn put_exponents<S: Sink>(sink: &mut S, list: &[u16])
    ensures puts { S.puts sink.old (exponents list.now) sink.new }
    ensures few { length list.now ≤ 8 → length (exponents list.now) ≤ 168 }
{
    let [first, rest @ ..] = list else {
        return;
    };
    sink.put_decimal(u64::from(*first));
    for exponent in rest {
        sink.put_next(u64::from(*exponent));
    }
}
