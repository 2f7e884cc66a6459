// The derivative of a place.
ghost use Rattle.std.specs.Prelude.{◌≡◌};
ghost use Rattle.formats.specs.Drafts.{variables};
ghost use Rattle.areas.specs.Areas.{answered};
ghost use Rattle.sheets.specs.States.{kept};
ghost use Rattle.sheets.specs.Desks.{Blank};
ghost use Rattle.sheets.specs.Sheets.{state, lent, rows_lent};
ghost use Rattle.sheets.specs.Running.{running};
ghost use Rattle.sheets.specs.Lent.{kept as kept_rows};
ghost use Rattle.sheets.specs.Calls.{differentiated};
ghost use Rattle.sheets.specs.Changes.{row_derived};
ghost use Rattle.sheets.specs.Promises.{Differentiating};

use crate::place::Place;
use crate::sheet::Sheet;
use formats::Format;
use refusals::Refusal;
use rings::Ring;
use rows::Row;

// The row differentiated; none if that is zero.
fn derived_row<K: Ring>(
    format: &Format,
    row: Row<K>,
    variable: usize,
) -> Result<Option<Row<K>>, Refusal>
    ensures { result ≡ row_derived K.kind (variables format.now) variable row }
{
    let exponent = format.exponent(row.key, variable);
    if exponent == 0 {
        return Ok(None);
    }
    let coefficient = row.coefficient.multiple(exponent)?;
    if coefficient.is_zero() {
        return Ok(None);
    }
    let key = format.replace(row.key, variable, exponent - 1)?;
    Ok(Some(Row { key, coefficient }))
}

impl<K: Ring> Sheet<'_, K> {
    // Makes the derivative of a place by a variable, which is told by its number, the rows of a place.
    pub fn differentiate(
        &mut self,
        res: usize,
        place: usize,
        variable: usize,
    ) -> Result<(), Refusal>
        ensures answer { result ≡ answered (differentiated K.kind (state self.old) res place variable) }
        ensures leaves { state self.new ≡ kept (state self.old) res (differentiated K.kind (state self.old) res place variable) }
        ensures blank { Blank self.old.desk → Blank self.new.desk }
        ensures long { rows_lent self.new ≡ rows_lent self.old }
        ensures running { running self.new.desk ≡ running self.old.desk }
        ensures lent { lent self.new ≡ kept_rows K.kind (lent self.old) res (differentiated K.kind (state self.old) res place variable) }
        ensures algebra { Differentiating K.kind (state self.old) (state self.new) result res place variable }
    {
        let res = Place::try_from(res)?;
        let place = Place::try_from(place)?;
        if variable >= self.desk.top.format.count() {
            return Err(Refusal::Variable);
        }
        let format = self.desk.top.format;
        let desk = &mut self.desk;
        let answer = desk
            .top
            .change_rows(8, place, |row| derived_row(&format, row, variable));
        desk.top.settle(res, answer)
    }
}
