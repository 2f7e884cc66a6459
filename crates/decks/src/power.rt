// An exponent of a term.
ghost use Rattle.std.specs.Prelude.{◌≡◌, ◌%◌, ◌^◌, ◌≤◌, take};
ghost use Rattle.formats.specs.Drafts.{variables};
ghost use Rattle.formats.specs.Keys.{unpack};
ghost use Rattle.formats.specs.Variables.{total};
ghost use Rattle.texts.specs.Terms.{power};
ghost use Rattle.decks.specs.Faults.{width_at, Exponential};
ghost use Rattle.decks.specs.Shown.{got_shown};

use crate::fault::Fault;
use crate::number::Number;
use crate::partial::{Got, Partial, Powers};
use formats::Format;
use refusals::Refusal;
use rings::Ring;
use rows::Row;

// The width of a variable's exponents; 0 past the last variable.
fn width_of(format: &Format, variable: usize) -> u8
    ensures width { result ≡ width_at (variables format.now) variable }
    ensures narrow { result ≤ 16 }
{
    format
        .variables()
        .get(variable)
        .map_or(0, |variable| variable.width)
}

// The exponent of a width that a number is.
fn exponent_of(number: Number, width: u8) -> Result<u64, Fault>
    requires { width ≤ 16 }
    ensures { Exponential number width result }
{
    match u64::try_from(number.value) {
        Ok(exponent) if exponent >> width == 0 => Ok(exponent),
        _ => Err(Fault::new(Refusal::Exponent, number.first)),
    }
}

// The key without the bits above its fields.
fn within(format: &Format, key: u64) -> u64
    ensures { result ≡ key % 2 ^ total (variables format.now) }
{
    key & (u64::MAX >> (64 - format.bits()))
}

// The term with the number as its next exponent.
pub(crate) fn power<K: Ring>(
    format: &Format,
    powers: Powers<K>,
    number: Number,
) -> Result<Got<K>, Fault>
    ensures { got_shown (variables format.now) result ≡ power (variables format.now) powers.coefficient powers.first (unpack (take powers.count (variables format.now)) powers.key) number.first number.value }
{
    let width = width_of(format, powers.count);
    let exponent = exponent_of(number, width)?;
    let key = (powers.key << width) + exponent;
    if powers.count < format.count() - 1 {
        return Ok(Got::More(Partial::Powers(Powers {
            count: powers.count + 1,
            key,
            ..powers
        })));
    }
    let row = Row {
        key: within(format, key),
        coefficient: powers.coefficient,
    };
    Ok(Got::Whole(row, powers.first))
}
