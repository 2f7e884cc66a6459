// Reading a place.
ghost use Rattle.std.specs.Prelude.{◌≡◌, [], Some, None};
ghost use Rattle.sheets.specs.Desks as desks;
ghost use Rattle.sheets.specs.Desks.{Blank};
ghost use Rattle.sheets.specs.Sheets.{state, rows_lent};
ghost use Rattle.sheets.specs.Running.{running};
ghost use Rattle.cards.specs.Read.{deck_shown, read_of, read_answer, read_leaves, Reads};

use crate::terms::term;
use decks::{Card, Fault, Partial, through};
use refusals::Refusal;
use rings::Ring;
use sheets::{Desk, Sheet};

// A refusal, and its byte unless it is the place's.
#[derive(Clone, Copy, Debug)]
pub struct ReadFault {
    pub refusal: Refusal,
    pub byte: Option<usize>,
}

impl From<Fault> for ReadFault {
    ghost from_gives = { λ fault f. f ≡ record { refusal = fault.refusal; byte = Some fault.byte } };

    fn from(fault: Fault) -> ReadFault {
        ReadFault {
            refusal: fault.refusal,
            byte: Some(fault.byte),
        }
    }
}

impl From<Refusal> for ReadFault {
    ghost from_gives = { λ refusal f. f ≡ record { refusal = refusal; byte = None } };

    fn from(refusal: Refusal) -> ReadFault {
        ReadFault {
            refusal,
            byte: None,
        }
    }
}

// Reads a deck into the running table, and answers how many bytes it has.
// That the places stay is no fact of the desk's type: calls on it change them.
fn read_deck<K: Ring>(desk: &mut Desk<'_, K>, text: &[u8]) -> Result<usize, Fault>
    requires { running desk.old ≡ [] }
    ensures answer { deck_shown result (running desk.new) ≡ read_of K.kind (desks.state desk.old) text.now }
    ensures leaves { desks.state desk.new ≡ desks.state desk.old }
    ensures long { desks.rows_lent desk.new ≡ desks.rows_lent desk.old }
{
    let mut card = Card::new();
    let mut partial = Partial::None;
    for (i, byte) in text.iter().enumerate() {
        let step = card.step(i, *byte)?;
        let Some(next) = term(desk, partial, step.number)? else {
            return Ok(i + through(text, i));
        };
        card = step.card;
        partial = next;
    }
    let step = card.close()?;
    match term(desk, partial, step.number)? {
        None => Ok(text.len()),
        Some(_) => Err(Fault {
            refusal: Refusal::TextEnds,
            byte: text.len(),
        }),
    }
}

// Gives the running table up after a fault, and answers what the text is refused for.
// That the places stay is a clause here too: a call on the desk may change them.
fn give_up<K: Ring>(desk: &mut Desk<'_, K>, fault: Fault) -> ReadFault
    ensures answer { result ≡ record { refusal = fault.refusal; byte = Some fault.byte } }
    ensures leaves { desks.state desk.new ≡ desks.state desk.old }
    ensures long { desks.rows_lent desk.new ≡ desks.rows_lent desk.old }
    ensures blank { Blank desk.new }
{
    desk.abandon();
    fault.into()
}

// Reads the deck at the start of the text into a place, and answers how many bytes it has. Refused, no place changes.
pub fn read<K: Ring>(
    sheet: &mut Sheet<'_, K>,
    place: usize,
    text: &[u8],
) -> Result<usize, ReadFault>
    ensures answer { result ≡ read_answer K.kind (state sheet.old) place text.now }
    ensures blank { Blank sheet.old.desk → Blank sheet.new.desk }
    ensures long { rows_lent sheet.new ≡ rows_lent sheet.old }
    ensures leaves { state sheet.new ≡ read_leaves K.kind (state sheet.old) place text.now }
    ensures algebra { Reads K.kind (state sheet.old) (state sheet.new) place text.now result }
{
    if place > 7 {
        return Err(Refusal::Place.into());
    }
    sheet.desk.begin();
    // A match, since the contract of `inspect_err` leaves open what the closure's desk is after an `Ok`.
    let bytes = match read_deck(&mut sheet.desk, text) {
        Ok(bytes) => bytes,
        Err(fault) => return Err(give_up(&mut sheet.desk, fault)),
    };
    sheet.desk.store(place)?;
    Ok(bytes)
}
