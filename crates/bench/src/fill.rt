// The polynomials that the operations work on.
ghost use Rattle.std.specs.Prelude.{◌<◌};
ghost use Rattle.sheets.specs.Desks.{Blank};

use formats::{Draft, Format};
use integers::Integer;
use refusals::Refusal;
use residues::Residue;
use rings::Ring;
use sheets::{Desk, Sheet};

// The format of X, Y and Z with one width each.
pub(crate) fn format_of(width: u32) -> Result<Format, Refusal> {
    b"XYZ"
        .iter()
        .try_fold(Draft::new(), |draft, letter| draft.add(*letter, width))
        .and_then(Draft::close)
        .map_err(|(refusal, _)| refusal)
}

// Makes the running table, if the rows that were entered made one, the rows of a place.
fn stored<K: Ring>(
    desk: &mut Desk<'_, K>,
    place: usize,
    entered: Result<(), Refusal>,
) -> Result<(), Refusal>
    ensures { Blank desk.new }
{
    match entered {
        Ok(()) => desk.store(place),
        Err(refusal) => {
            desk.abandon();
            Err(refusal)
        }
    }
}

// Enters 2,000 rows. A row is told by its number, which falls, as its key and its figure.
fn enter_table<F: Fn(u32) -> (u64, i64)>(
    desk: &mut Desk<'_, Integer>,
    row: F,
) -> Result<(), Refusal>
    requires { F.IsAlwaysCallable row }
{
    desk.begin();
    for i in (0..2000).rev() {
        let (key, figure) = row(i);
        desk.enter(key, Integer { figure })?;
    }
    Ok(())
}

// A table of 2,000 rows in a place.
fn table<F: Fn(u32) -> (u64, i64)>(
    sheet: &mut Sheet<'_, Integer>,
    place: usize,
    row: F,
) -> Result<(), Refusal>
    requires { F.IsAlwaysCallable row }
{
    let entered = enter_table(&mut sheet.desk, row);
    stored(&mut sheet.desk, place, entered)
}

// Two tables in places 0 and 1, a third of whose keys are the same.
pub(crate) fn two_tables(sheet: &mut Sheet<'_, Integer>) -> Result<(), Refusal> {
    table(sheet, 0, |i| (2 * u64::from(i), 2000 - i64::from(i)))?;
    table(sheet, 1, |i| {
        let size = 1999 - i64::from(i);
        let figure = if i % 2 == 0 { size } else { -size - 1 };
        (3 * u64::from(i), figure)
    })
}

// A row of random numbers.
#[derive(Drop)]
struct Draws {
    seed: u32,
}

impl Draws {
    // The next one, below a bound.
    fn below(&mut self, bound: u16) -> u16
        requires { 0 < bound }
        ensures { result < bound }
    {
        self.seed = self
            .seed
            .wrapping_mul(1_664_525)
            .wrapping_add(1_013_904_223);
        ((self.seed >> 16) % u32::from(bound)) as u16
    }
}

// Enters 60 random terms, X up to 5, Y and Z up to 999.
fn enter_sparse(desk: &mut Desk<'_, Integer>, seed: u32) -> Result<(), Refusal> {
    let format = desk.format();
    let mut draws = Draws { seed };
    desk.begin();
    for _ in 0..60 {
        let (x, y, z) = (draws.below(6), draws.below(1000), draws.below(1000));
        let figure = 1 + i64::from(draws.below(100));
        let key = format.pack(&[x, y, z, 0, 0, 0, 0, 0])?;
        desk.enter(key, Integer { figure })?;
    }
    Ok(())
}

// A polynomial of 60 random terms in a place.
pub(crate) fn sparse(
    sheet: &mut Sheet<'_, Integer>,
    place: usize,
    seed: u32,
) -> Result<(), Refusal> {
    let entered = enter_sparse(&mut sheet.desk, seed);
    stored(&mut sheet.desk, place, entered)
}

// Enters the variables and one.
fn enter_four(desk: &mut Desk<'_, Residue>) -> Result<(), Refusal> {
    let format = desk.format();
    let one = Residue { number: 1 };
    desk.begin();
    for variable in 0..format.count() {
        desk.enter(format.unit(variable)?, one)?;
    }
    desk.enter(0, one)
}

// (1 + X + Y + Z)^10 in place 0.
pub(crate) fn power_of_four(sheet: &mut Sheet<'_, Residue>) -> Result<(), Refusal> {
    let entered = enter_four(&mut sheet.desk);
    stored(&mut sheet.desk, 1, entered)?;
    sheet.constant(0, 1, 0)?;
    for _ in 0..10 {
        sheet.multiply(0, 0, 1)?;
    }
    Ok(())
}
