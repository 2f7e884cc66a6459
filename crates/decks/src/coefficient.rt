// The coefficient of a term.
ghost use Rattle.std.specs.Prelude.{◌≡◌, List};
ghost use Rattle.formats.specs.declared.variable.Variable.{Variable as VariableOf};
ghost use Rattle.texts.specs.Terms.{coefficient};
ghost use Rattle.decks.specs.Shown.{got_shown};

use crate::bytes::at_byte;
use crate::fault::Fault;
use crate::partial::{Got, Partial, Powers};
use rings::Ring;

// The coefficient that figures make. Zero ends the deck.
pub(crate) fn coefficient<K: Ring>(byte: usize, first: i64, second: i64) -> Result<Got<K>, Fault>
    ensures { (vs : List VariableOf) → got_shown vs result ≡ coefficient K.kind byte (K.kind.make first second) }
{
    let value: K = at_byte(K::from_figures(first, second), byte)?;
    if value.is_zero() {
        return Ok(Got::Ends);
    }
    Ok(Got::More(Partial::Powers(Powers {
        coefficient: value,
        first: byte,
        count: 0,
        key: 0,
    })))
}
