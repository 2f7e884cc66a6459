// A variable.
ghost use Rattle.std.specs.Prelude.{◌≡◌, [], ◌∷◌, Ok};
ghost use Rattle.rows.specs.Tables.{row, limited};
ghost use Rattle.areas.specs.Areas.{contents, storing, rows_of, answered};
ghost use Rattle.sheets.specs.Worktops as worktops;
ghost use Rattle.sheets.specs.States.{kept};
ghost use Rattle.sheets.specs.Desks.{Blank};
ghost use Rattle.sheets.specs.Sheets.{state, lent, rows_lent};
ghost use Rattle.sheets.specs.Running.{running};
ghost use Rattle.sheets.specs.Lent.{variable_answer, kept as kept_rows};
ghost use Rattle.sheets.specs.Calls.{variable as variable_table};
ghost use Rattle.sheets.specs.Promises.{VariableOf};

use crate::place::Place;
use crate::sheet::Sheet;
use crate::worktop::Worktop;
use refusals::Refusal;
use rings::Ring;
use rows::Row;

impl<K: Ring> Worktop<'_, K> {
    // Makes one row the rows of a place.
    pub(crate) fn single(&mut self, res: Place, key: u64, coefficient: K) -> Result<(), Refusal>
        ensures answer { result ≡ answered (limited (worktops.state self.old).room (Ok (row key coefficient ∷ []))) }
        ensures areas { contents self.new.areas ≡ storing (contents self.old.areas) res.area (rows_of (limited (worktops.state self.old).room (Ok (row key coefficient ∷ [])))) }
        ensures format { self.new.format ≡ self.old.format }
    {
        self.areas.clear(res.area);
        self.areas.push(res.area, Row { key, coefficient })
    }
}

impl<K: Ring> Sheet<'_, K> {
    // Makes a variable of the format, by its number, the rows of a place.
    pub fn variable(&mut self, res: usize, variable: usize) -> Result<(), Refusal>
        ensures answer { result ≡ answered (variable_table K.kind (state self.old) res variable) }
        ensures leaves { state self.new ≡ kept (state self.old) res (variable_table K.kind (state self.old) res variable) }
        ensures told { result ≡ answered (variable_answer K.kind (lent self.old) res variable) }
        ensures blank { Blank self.old.desk → Blank self.new.desk }
        ensures long { rows_lent self.new ≡ rows_lent self.old }
        ensures running { running self.new.desk ≡ running self.old.desk }
        ensures lent { lent self.new ≡ kept_rows K.kind (lent self.old) res (variable_answer K.kind (lent self.old) res variable) }
        ensures algebra { VariableOf K.kind (state self.old) (state self.new) result res variable }
    {
        let res = Place::try_from(res)?;
        let key = self.desk.top.format.unit(variable)?;
        let desk = &mut self.desk;
        desk.top.single(res, key, K::one())
    }
}
