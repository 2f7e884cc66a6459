// What is printed of an operation.
ghost use Rattle.std.specs.Prelude.{◌<◌};

use refusals::Refusal;
use rings::Ring;
use rows::Row;
use sheets::Sheet;
use std::time::Instant;
use uses::{Call, NoDivision, perform};

#[derive(Clone, Copy)]
pub(crate) enum Printed {
    // how many rows the result has, and a checksum of them
    Rows,
    // the nanoseconds that the operation takes
    Time,
}

#[derive(Drop)]
pub(crate) struct Report<'a> {
    pub(crate) rt: &'a HostRuntime,
    pub(crate) printed: Printed,
}

// A number that hangs on every key and figure of a table.
fn checksum<K: Ring>(rows: &[Row<K>]) -> u64 {
    let mut sum = 0u64;
    for row in rows {
        let (figure, _) = row.coefficient.figures();
        sum = sum
            .wrapping_mul(31)
            .wrapping_add(row.key.wrapping_mul(7))
            .wrapping_add_signed(figure);
    }
    sum
}

// Performs a call so many times.
fn repeat<K: Ring>(
    sheet: &mut Sheet<'_, K>,
    call: &Call<'_, NoDivision>,
    times: u32,
) -> Result<(), Refusal> {
    for _ in 0..times {
        perform(sheet, call, &mut []).map_err(|fault| fault.refusal)?;
    }
    Ok(())
}

impl Report<'_> {
    // Prints what a call leaves in a place, or the time that it takes, by so many repetitions.
    pub(crate) fn of<K: Ring>(
        &self,
        name: &str,
        times: u32,
        sheet: &mut Sheet<'_, K>,
        place: usize,
        call: Call<'_, NoDivision>,
    ) -> anyhow::Result<()>
        requires { 0 < times }
    {
        let call = &call;
        match self.printed {
            Printed::Rows => {
                repeat(sheet, call, 1)?;
                let rows = sheet.rows(place)?;
                let count = rows.len();
                let sum = checksum(rows);
                println!(self.rt; "{name} {count} {sum}")?;
            }
            Printed::Time => {
                let start = Instant::now(self.rt)?;
                repeat(sheet, call, times)?;
                let each = start.elapsed(self.rt)?.as_nanos() / u128::from(times);
                println!(self.rt; "{name} {each}")?;
            }
        }
        Ok(())
    }
}
