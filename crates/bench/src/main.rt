// How fast the arithmetic of a sheet is. Without an argument the program prints how many rows each result has and a
// checksum of them; with the argument `time`, the nanoseconds that the operation takes. tools/compare sets them
// beside the same work in C and with FLINT.
#![tactic(auto)]

mod fill;
mod report;
#[cfg(test)]
mod tests;

use fill::{format_of, power_of_four, sparse, two_tables};
use integers::Integer;
use report::{Printed, Report};
use residues::Residue;
use rings::Ring;
use rows::Row;
use sheets::Sheet;
use std::{env, io};
use uses::Call;

// Rows for areas of 4096.
const LENT: usize = 49152;

// How often a fast operation is repeated for its time.
const MANY: u32 = 1000;

// How often a slow one is.
const SOME: u32 = 20;

// Adding 2,000 rows to 2,000.
fn adding(report: &Report<'_>, sheet: &mut Sheet<'_, Integer>) -> anyhow::Result<()> {
    two_tables(sheet)?;
    report.of("add", MANY, sheet, 2, Call::Add(2, 0, 1))
}

// The product of two sparse polynomials of 60 terms, its derivative, and Y + 2 for X in the first of them.
fn sparse_work(report: &Report<'_>, sheet: &mut Sheet<'_, Integer>) -> anyhow::Result<()> {
    sparse(sheet, 0, 1)?;
    sparse(sheet, 1, 2)?;
    report.of("product", SOME, sheet, 2, Call::Multiply(2, 0, 1))?;
    report.of("derivative", SOME, sheet, 3, Call::Differentiate(3, 2, 1))?;
    sheet.variable(4, 1)?;
    sheet.constant(5, 2, 0)?;
    sheet.add(4, 4, 5)?;
    report.of("substitution", SOME, sheet, 5, Call::Substitute(5, 0, 4, 0))
}

// The square of (1 + X + Y + Z)^10 over residues.
fn square(report: &Report<'_>, sheet: &mut Sheet<'_, Residue>) -> anyhow::Result<()> {
    power_of_four(sheet)?;
    report.of("square", SOME, sheet, 1, Call::Multiply(1, 0, 0))
}

// Blank rows to lend to a sheet.
fn blank_rows<K: Ring>(rt: &HostRuntime) -> io::Result<Vec<Row<K>>> {
    Ok(vec![in rt.alloc(); Row::blank(); LENT]?)
}

fn over_integers(report: &Report<'_>) -> anyhow::Result<()> {
    let mut lent = blank_rows::<Integer>(report.rt)?;
    let mut sheet = Sheet::open(lent.as_mut_slice(), format_of(16)?);
    adding(report, &mut sheet)?;
    sparse_work(report, &mut sheet)
}

fn over_residues(report: &Report<'_>) -> anyhow::Result<()> {
    let mut lent = blank_rows::<Residue>(report.rt)?;
    let mut sheet = Sheet::open(lent.as_mut_slice(), format_of(8)?);
    square(report, &mut sheet)
}

fn main(rt: HostRuntime) -> anyhow::Result<()> {
    let timed = env::args(&rt)?
        .nth(1)
        .is_some_and(|word| word.as_str() == "time");
    let report = Report {
        rt: &rt,
        printed: if timed { Printed::Time } else { Printed::Rows },
    };
    over_integers(&report)?;
    over_residues(&report)
}
