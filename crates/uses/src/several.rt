// Performing a list of calls.
ghost use Rattle.std.specs.Prelude.{◌≡◌, min, true, List, map, length, take, drop};
ghost use Rattle.formats.specs.Drafts.{Sound};
ghost use Rattle.formats.specs.declared.variable.Variable.{Variable as VariableOf};
ghost use Rattle.arithmetic.specs.Dividing.{Over};
ghost use Rattle.sheets.specs.Desks.{Blank};
ghost use Rattle.sheets.specs.Sheets.{state, rows_lent};
ghost use Rattle.uses.specs.Answers.{answer_of};
ghost use Rattle.uses.specs.Performing.{call_of};
ghost use Rattle.uses.specs.Runs.{Ran, Onward};

use crate::call::{Answer, Call};
use crate::division::Divides;
use crate::single::perform;
use rings::Ring;
use sheets::Sheet;

// Performs calls in order, as many as there are answers for, and answers how many.
pub fn run<K: Ring, D: Divides<K>>(
    sheet: &mut Sheet<'_, K>,
    calls: &[Call<'_, D>],
    answers: &mut [Answer<K>],
    output: &mut [u8],
) -> usize
    ensures count { result ≡ min (length calls.now) (length answers.old) }
    ensures ran { (over : Over K) → D.divides_by over → Ran K.kind over (state sheet.old) (map (call_of (length output.old)) (take result calls.now)) output.old (state sheet.new) (map answer_of (take result answers.new)) output.new }
    ensures others { drop result answers.new ≡ drop result answers.old }
    ensures blank { Blank sheet.old.desk → Blank sheet.new.desk }
    ensures long { rows_lent sheet.new ≡ rows_lent sheet.old }
    ensures promise { (over : Over K) (vs : List VariableOf) → D.divides_by over → Sound vs → (D.may ≡ true → K.whole ≡ true) → Onward K.kind over vs D.may (state sheet.old) (map (call_of (length output.old)) (take result calls.now)) (state sheet.new) }
{
    let count = calls.len().min(answers.len());
    for (i, call) in calls[..count].iter().enumerate() {
        // By its index: what is written through a `zip` with `iter_mut` is unknown to a proof.
        answers[i] = perform(sheet, call, output);
    }
    count
}
