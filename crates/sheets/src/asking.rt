// What can be asked of a sheet, and of its desk.
ghost use Rattle.std.specs.Prelude.{◌≡◌, ◌<◌, ◌≤◌, MatchResult};
ghost use Rattle.refusals.specs.declared.Refusal.TheVariants.{Place};
ghost use Rattle.formats.specs.Drafts.{variables};
ghost use Rattle.sheets.specs.Desks as desks;
ghost use Rattle.sheets.specs.Sheets.{state};

use crate::desk::Desk;
use crate::sheet::Sheet;
use formats::Format;
use refusals::Refusal;
use rings::Ring;
use rows::Row;

impl<K: Ring> Desk<'_, K> {
    // The format of the sheet.
    pub fn format(&self) -> Format
        ensures { variables result ≡ (desks.state self.now).vars }
    {
        self.top.format
    }
}

impl<K: Ring> Sheet<'_, K> {
    // The most rows that a place can have.
    pub fn room(&self) -> usize
        ensures { result ≡ (state self.now).room }
    {
        self.desk.top.areas.room()
    }

    // The format that the sheet was opened with.
    pub fn format(&self) -> Format
        ensures { variables result ≡ (state self.now).vars }
    {
        self.desk.format()
    }

    // The rows of a place.
    pub fn rows(&self, place: usize) -> Result<&[Row<K>], Refusal>
        ensures { MatchResult result (λ x. (place < 8) × (x.now ≡ (state self.now).places place)) (λ e. (8 ≤ place) × (e ≡ Place)) }
    {
        let place = crate::place::Place::try_from(place)?;
        Ok(self.desk.top.areas.table(place.area))
    }
}
