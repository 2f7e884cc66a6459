// Writing a place.
ghost use Rattle.std.specs.Prelude.{◌≡◌, ◌+◌, ◌*◌, ◌≤◌, length, IfOk};
ghost use Rattle.sheets.specs.Sheets.{state};
ghost use Rattle.cards.specs.Written.{write_answer, write_leaves};

use crate::deck::put_deck;
use crate::room::Room;
use crate::writer::Writer;
use refusals::Refusal;
use rings::Ring;
use sheets::Sheet;

// Writes the cards of a place to the start of the output, and answers how many bytes they have.
pub fn write<K: Ring>(
    sheet: &Sheet<'_, K>,
    place: usize,
    output: &mut [u8],
) -> Result<usize, Refusal>
    ensures answer { result ≡ write_answer K.kind (state sheet.now) place (length output.old) }
    ensures few { IfOk result (λ n. n ≤ 44 + 213 * length ((state sheet.now).places place)) }
    ensures leaves { output.new ≡ write_leaves K.kind (state sheet.now) place output.old }
{
    let rows = sheet.rows(place)?;
    let format = sheet.format();
    let mut room = Room {
        left: Some(output.len()),
    };
    put_deck(&mut room, &format, rows);
    room.left.ok_or(Refusal::Output)?;
    let mut writer = Writer { output, at: 0 };
    put_deck(&mut writer, &format, rows);
    Ok(writer.at)
}
