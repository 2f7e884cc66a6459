// Performing a call.
ghost use Rattle.std.specs.Prelude.{◌≡◌, true, List, [], ◌∷◌, length};
ghost use Rattle.formats.specs.Drafts.{Sound};
ghost use Rattle.formats.specs.declared.variable.Variable.{Variable as VariableOf};
ghost use Rattle.arithmetic.specs.Dividing.{Over};
ghost use Rattle.sheets.specs.Desks.{Blank};
ghost use Rattle.sheets.specs.Sheets.{state, rows_lent};
ghost use Rattle.conduct.specs.Calls.{answer as answer_in, after};
ghost use Rattle.uses.specs.Answers.{answer_of};
ghost use Rattle.uses.specs.Performing.{call_of, output_after};
ghost use Rattle.uses.specs.Runs.{Onward};

use crate::call::{Answer, Call, Reply};
use crate::division::Divides;
use cards::{read, write};
use rings::Ring;
use sheets::Sheet;

// What a call answers, performed on a sheet.
fn carry_out<K: Ring, D: Divides<K>>(
    sheet: &mut Sheet<'_, K>,
    call: &Call<'_, D>,
    output: &mut [u8],
) -> Answer<K>
    ensures answer { (over : Over K) → D.divides_by over → answer_of result ≡ answer_in K.kind over (state sheet.old) (call_of (length output.old) call.now) }
    ensures leaves { (over : Over K) → D.divides_by over → state sheet.new ≡ after K.kind over (state sheet.old) (call_of (length output.old) call.now) }
    ensures output { output.new ≡ output_after K.kind (state sheet.old) (call_of (length output.old) call.now) output.old }
    ensures blank { Blank sheet.old.desk → Blank sheet.new.desk }
    ensures long { rows_lent sheet.new ≡ rows_lent sheet.old }
{
    match *call {
        Call::Read(r, text) => return Ok(Reply::Bytes(read(sheet, r, text)?)),
        Call::Constant(r, a, b) => sheet.constant(r, a, b)?,
        Call::Variable(r, v) => sheet.variable(r, v)?,
        Call::Copied(r, p) => sheet.copy(r, p)?,
        Call::Negate(r, p) => sheet.negate(r, p)?,
        Call::Add(r, p, q) => sheet.add(r, p, q)?,
        Call::Subtract(r, p, q) => sheet.subtract(r, p, q)?,
        Call::Multiply(r, p, q) => sheet.multiply(r, p, q)?,
        Call::Divide(r, p, q, _leave) => D::divide(sheet, r, p, q)?,
        Call::Differentiate(r, p, v) => sheet.differentiate(r, p, v)?,
        Call::Substitute(r, p, q, v) => sheet.substitute(r, p, q, v)?,
        Call::Truncate(r, p, k, n) => sheet.truncate(r, p, k, n)?,
        Call::MultiplyTruncate(r, p, q, k, n) => sheet.multiply_truncated(r, p, q, k, n)?,
        Call::Write(p) => return Ok(Reply::Bytes(write(sheet, p, output)?)),
        Call::Equal(p, q) => return Ok(Reply::Tells(sheet.equal(p, q)?)),
        Call::Leading(p) => return Ok(Reply::First(sheet.leading(p)?)),
    }
    Ok(Reply::Done)
}

// Performs a call on a sheet.
pub fn perform<K: Ring, D: Divides<K>>(
    sheet: &mut Sheet<'_, K>,
    call: &Call<'_, D>,
    output: &mut [u8],
) -> Answer<K>
    ensures answer { (over : Over K) → D.divides_by over → answer_of result ≡ answer_in K.kind over (state sheet.old) (call_of (length output.old) call.now) }
    ensures leaves { (over : Over K) → D.divides_by over → state sheet.new ≡ after K.kind over (state sheet.old) (call_of (length output.old) call.now) }
    ensures output { output.new ≡ output_after K.kind (state sheet.old) (call_of (length output.old) call.now) output.old }
    ensures blank { Blank sheet.old.desk → Blank sheet.new.desk }
    ensures long { rows_lent sheet.new ≡ rows_lent sheet.old }
    ensures promise { (over : Over K) (vs : List VariableOf) → D.divides_by over → Sound vs → (D.may ≡ true → K.whole ≡ true) → Onward K.kind over vs D.may (state sheet.old) (call_of (length output.old) call.now ∷ []) (state sheet.new) }
{
    carry_out(sheet, call, output)
}
