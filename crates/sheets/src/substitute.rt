// A place for a variable of another. The sum is made in the area 8, the table of one row in the area 9.
ghost use Rattle.std.specs.Prelude.{◌≡◌, ◌<◌, [], ◌∷◌, length, Ok};
ghost use Rattle.rows.specs.Products.{continued};
ghost use Rattle.rows.specs.Tables.{row as row_of, sum, limited};
ghost use Rattle.areas.specs.Areas.{answered};
ghost use Rattle.arithmetic.specs.Deriving.{with_power};
ghost use Rattle.arithmetic.specs.Substituting.{raised, term_raised, substituted as substituted_rows};
ghost use Rattle.sheets.specs.Worktops as worktops;
ghost use Rattle.sheets.specs.States.{kept};
ghost use Rattle.sheets.specs.Desks.{Blank};
ghost use Rattle.sheets.specs.Sheets.{state, lent, rows_lent};
ghost use Rattle.sheets.specs.Lent.{kept as kept_rows};
ghost use Rattle.sheets.specs.Calls.{substituted};
ghost use Rattle.sheets.specs.Ends.{made_in, Making};
ghost use Rattle.sheets.specs.Promises.{Substituting};
ghost use Rattle.sheets.specs.Working.{table};

use crate::place::Place;
use crate::sheet::Sheet;
use crate::worktop::Worktop;
use refusals::Refusal;
use rings::Ring;
use rows::Row;

impl<K: Ring> Worktop<'_, K> {
    // Multiplies the table in the area 9 by that of another area, `power` times over.
    pub(crate) fn raise(&mut self, right: Place, power: u16) -> Result<(), Refusal>
        ensures { Making 9 self.old self.new (raised K.kind (worktops.state self.old).vars (worktops.state self.old).room (table self.old right.area) (table self.old 9) power) (made_in 9 result) }
    {
        for _ in 0..power {
            let at = self.product_in(9, right.area)?;
            self.areas.copy(9, at);
        }
        Ok(())
    }

    // Makes a row without the variable the table of the area 9.
    // A clause says that the variable is in the format: the worktop has the format, so no type of the number can say it.
    pub(crate) fn begin_term(&mut self, variable: usize, row: Row<K>) -> Result<(), Refusal>
        requires variable { variable < length (worktops.state self.old).vars }
        requires room { 0 < (worktops.state self.old).room }
        ensures { Making 9 self.old self.new (Ok (row_of (with_power (worktops.state self.old).vars variable 0 row) row.coefficient ∷ [])) (made_in 9 result) }
    {
        let key = self.format.replace(row.key, variable, 0)?;
        self.areas.clear(9);
        let coefficient = row.coefficient;
        self.areas.push(9, Row { key, coefficient })
    }

    // Adds a row, with the table of an area for the variable, to the table in the area 8.
    // A clause says that the variable is in the format: the worktop has the format, so no type of the number can say it.
    pub(crate) fn add_term(
        &mut self,
        right: Place,
        variable: usize,
        row: Row<K>,
    ) -> Result<(), Refusal>
        requires variable { variable < length (worktops.state self.old).vars }
        requires room { 0 < (worktops.state self.old).room }
        ensures { Making 8 self.old self.new (continued (term_raised K.kind (worktops.state self.old).vars (worktops.state self.old).room variable (table self.old right.area) row) (λ ts. limited (worktops.state self.old).room (sum K.kind (table self.old 8) ts))) (made_in 8 result) }
    {
        let power = self.format.exponent(row.key, variable);
        self.begin_term(variable, row)?;
        self.raise(right, power)?;
        self.areas.add(10, 8, 9)?;
        self.areas.copy(8, 10);
        Ok(())
    }

    // Adds up all rows of the table in an area, and answers the area of the sum.
    // A clause says that the variable is in the format: the worktop has the format, so no type of the number can say it.
    pub(crate) fn substitution_in(
        &mut self,
        left: Place,
        right: Place,
        variable: usize,
    ) -> Result<usize, Refusal>
        requires { variable < length (worktops.state self.old).vars }
        ensures { Making 8 self.old self.new (substituted_rows K.kind (worktops.state self.old).vars (worktops.state self.old).room variable (table self.old right.area) [] (table self.old left.area)) result }
    {
        self.areas.clear(8);
        // By index: the rows of all areas are lent together, and the body writes to them.
        for i in 0..self.areas.table(left.area).len() {
            let row = self.areas.table(left.area)[i];
            self.add_term(right, variable, row)?;
        }
        Ok(8)
    }
}

impl<K: Ring> Sheet<'_, K> {
    // Makes a place, with another for a variable of the format, the rows of a place.
    pub fn substitute(
        &mut self,
        res: usize,
        left: usize,
        right: usize,
        variable: usize,
    ) -> Result<(), Refusal>
        ensures answer { result ≡ answered (substituted K.kind (state self.old) res left right variable) }
        ensures leaves { state self.new ≡ kept (state self.old) res (substituted K.kind (state self.old) res left right variable) }
        ensures blank { Blank self.old.desk → Blank self.new.desk }
        ensures long { rows_lent self.new ≡ rows_lent self.old }
        ensures lent { Blank self.old.desk → lent self.new ≡ kept_rows K.kind (lent self.old) res (substituted K.kind (state self.old) res left right variable) }
        ensures algebra { Substituting K.kind (state self.old) (state self.new) result res left right variable }
    {
        let res = Place::try_from(res)?;
        let left = Place::try_from(left)?;
        let right = Place::try_from(right)?;
        if variable >= self.desk.top.format.count() {
            return Err(Refusal::Variable);
        }
        let desk = &mut self.desk;
        let made = desk.top.substitution_in(left, right, variable);
        desk.top.finish(res, made)
    }
}
