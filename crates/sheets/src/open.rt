// Opening a sheet.
ghost use Rattle.std.specs.Prelude.{◌≡◌, length};
ghost use Rattle.formats.specs.Drafts.{variables};
ghost use Rattle.sheets.specs.States.{opened};
ghost use Rattle.sheets.specs.Desks.{Blank};
ghost use Rattle.sheets.specs.Sheets.{state, lent, rows_lent};
ghost use Rattle.sheets.specs.Lent.{opened as opened_rows};

use crate::desk::Desk;
use crate::sheet::Sheet;
use crate::worktop::Worktop;
use areas::Areas;
use formats::Format;
use rings::Ring;
use rows::Row;

impl<'a, K: Ring> Sheet<'a, K> {
    // A sheet on the rows, with every place empty. What the rows held is gone.
    pub fn open(rows: &'a mut [Row<K>], format: Format) -> Sheet<'a, K>
        ensures state { state result ≡ opened (length rows.old) (variables format) }
        ensures blank { Blank result.desk }
        ensures long { rows_lent result ≡ length rows.old }
        ensures lent { lent result ≡ opened_rows K.kind (length rows.old) (variables format) }
    {
        let areas = Areas::open(rows);
        let top = Worktop { areas, format };
        Sheet { desk: Desk { top } }
    }
}
