// The terms of a deck, entered into the running table.
ghost use Rattle.std.specs.Prelude.{◌≡◌, ℕ};
ghost use Rattle.algebra.specs.Tables.{Falling};
ghost use Rattle.texts.specs.Reading.{Going};
ghost use Rattle.sheets.specs.Desks.{state, rows_lent};
ghost use Rattle.sheets.specs.Running.{running};
ghost use Rattle.cards.specs.Read.{Table, goes_on, numbered};

use decks::{Fault, Got, Number, Partial, at_byte, take};
use rings::Ring;
use sheets::Desk;

// Takes a number, if one has ended, into the term under way, and enters the term that it completes. Answers the term then under way, and none at the deck's end.
// Desk and term are no struct with this as its method: of a desk that a struct held by `&mut`, its lender could prove nothing afterwards.
// That the places stay is a clause here too: a call on the desk may change them.
pub(crate) fn term<K: Ring>(
    desk: &mut Desk<'_, K>,
    partial: Partial<K>,
    number: Option<Number>,
) -> Result<Option<Partial<K>>, Fault>
    requires { Falling (running desk.old) }
    ensures answer { (end : ℕ) (go : Going (Table K) K) → goes_on (state desk.old).vars result (running desk.new) end go ≡ numbered K.kind (state desk.old) (running desk.old) partial number end go }
    ensures falling { Falling (running desk.new) }
    ensures leaves { state desk.new ≡ state desk.old }
    ensures long { rows_lent desk.new ≡ rows_lent desk.old }
{
    let Some(number) = number else {
        return Ok(Some(partial));
    };
    match take(&desk.format(), partial, number)? {
        Got::More(partial) => Ok(Some(partial)),
        Got::Whole(row, first) => {
            at_byte(desk.enter(row.key, row.coefficient), first)?;
            Ok(Some(Partial::None))
        }
        Got::Ends => Ok(None),
    }
}
