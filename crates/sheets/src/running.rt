// The running table, to which terms are added one by one.
ghost use Rattle.std.specs.Prelude.{◌≡◌, ◌<◌, [], ◌∷◌, length};
ghost use Rattle.rows.specs.Tables.{row as row_of, sum, limited};
ghost use Rattle.areas.specs.Areas.{answered, rows_of};
ghost use Rattle.sheets.specs.States.{kept};
ghost use Rattle.sheets.specs.Desks.{state, rows_lent, Blank};
ghost use Rattle.sheets.specs.Sheets.{state as state_of, rows_lent as lent_to};
ghost use Rattle.sheets.specs.Running.{running, below_last, entering, storing_running};

use crate::desk::Desk;
use crate::place::Place;
use crate::sheet::Sheet;
use refusals::Refusal;
use rings::Ring;
use rows::Row;

// Whether a key is below that of the last row, if there is one.
fn below_last<K: Ring>(key: u64, rows: &[Row<K>]) -> bool
    ensures { result ≡ below_last key rows.now }
{
    rows.last().is_none_or(|last| key < last.key)
}

impl<K: Ring> Desk<'_, K> {
    // Empties the running table.
    pub fn begin(&mut self)
        ensures empty { running self.new ≡ [] }
        ensures leaves { state self.new ≡ state self.old }
        ensures long { rows_lent self.new ≡ rows_lent self.old }
    {
        self.top.areas.clear(9);
    }

    // Adds a row to the running table by a sum.
    fn merge(&mut self, row: Row<K>) -> Result<(), Refusal>
        requires { 0 < length (running self.old) }
        ensures answer { result ≡ answered (limited (state self.old).room (sum K.kind (running self.old) (row ∷ []))) }
        ensures made { running self.new ≡ rows_of (limited (state self.old).room (sum K.kind (running self.old) (row ∷ []))) }
        ensures leaves { state self.new ≡ state self.old }
        ensures long { rows_lent self.new ≡ rows_lent self.old }
    {
        self.top.areas.clear(10);
        self.top.areas.push(10, row)?;
        let answer = self.top.areas.add(11, 9, 10);
        self.top.areas.copy(9, 11);
        answer
    }

    // Adds a term to the running table. Refused, that is empty.
    pub fn enter(&mut self, key: u64, coefficient: K) -> Result<(), Refusal>
        ensures answer { result ≡ answered (entering K.kind (state self.old).room (running self.old) (row_of key coefficient)) }
        ensures made { running self.new ≡ rows_of (entering K.kind (state self.old).room (running self.old) (row_of key coefficient)) }
        ensures leaves { state self.new ≡ state self.old }
        ensures long { rows_lent self.new ≡ rows_lent self.old }
    {
        let row = Row { key, coefficient };
        if !below_last(key, self.top.areas.table(9)) {
            return self.merge(row);
        }
        let answer = self.top.areas.push(9, row);
        if answer.is_err() {
            self.begin();
        }
        answer
    }

    // Makes the running table the rows of a place, and empties it.
    pub fn store(&mut self, place: usize) -> Result<(), Refusal>
        ensures answer { result ≡ answered (storing_running self.old place) }
        ensures leaves { state self.new ≡ kept (state self.old) place (storing_running self.old place) }
        ensures long { rows_lent self.new ≡ rows_lent self.old }
        ensures blank { Blank self.new }
    {
        match Place::try_from(place) {
            Ok(place) => self.top.finish(place, Ok(9)),
            Err(refusal) => {
                self.top.sweep();
                Err(refusal)
            }
        }
    }

    // Gives the running table up.
    pub fn abandon(&mut self)
        ensures leaves { state self.new ≡ state self.old }
        ensures long { rows_lent self.new ≡ rows_lent self.old }
        ensures blank { Blank self.new }
    {
        self.top.sweep();
    }
}

impl<K: Ring> Sheet<'_, K> {
    // Empties the running table.
    pub fn begin(&mut self)
        ensures empty { running self.new.desk ≡ [] }
        ensures leaves { state_of self.new ≡ state_of self.old }
        ensures long { lent_to self.new ≡ lent_to self.old }
    {
        self.desk.begin();
    }

    // Adds a term to the running table. Refused, that is empty.
    pub fn enter(&mut self, key: u64, coefficient: K) -> Result<(), Refusal>
        ensures answer { result ≡ answered (entering K.kind (state_of self.old).room (running self.old.desk) (row_of key coefficient)) }
        ensures made { running self.new.desk ≡ rows_of (entering K.kind (state_of self.old).room (running self.old.desk) (row_of key coefficient)) }
        ensures leaves { state_of self.new ≡ state_of self.old }
        ensures long { lent_to self.new ≡ lent_to self.old }
    {
        self.desk.enter(key, coefficient)
    }

    // Makes the running table the rows of a place, and empties it.
    pub fn store(&mut self, place: usize) -> Result<(), Refusal>
        ensures answer { result ≡ answered (storing_running self.old.desk place) }
        ensures leaves { state_of self.new ≡ kept (state_of self.old) place (storing_running self.old.desk place) }
        ensures long { lent_to self.new ≡ lent_to self.old }
        ensures blank { Blank self.new.desk }
    {
        self.desk.store(place)
    }

    // Gives the running table up.
    pub fn abandon(&mut self)
        ensures leaves { state_of self.new ≡ state_of self.old }
        ensures long { lent_to self.new ≡ lent_to self.old }
        ensures blank { Blank self.new.desk }
    {
        self.desk.abandon();
    }
}
