// Every method of every coefficient kind at the limits of its figures, one line each; the gate compares what is written
// with `stdout`, which `tools/expected-trials` works out independently.
#![tactic(auto)]

mod kinds;

use gaussian::Gaussian;
use integers::Integer;
use kinds::{divisions, operations};
use parities::Parity;
use residues::Residue;
use words::Word;

// the figures that each kind is tried with, some of them out of its ranges
const INTEGERS: [(i64, i64); 16] = [
    (0, 0),
    (1, 0),
    (-1, 0),
    (2, 0),
    (-3, 0),
    (11585, 0),
    (11586, 0),
    (2047, 0),
    (65536, 0),
    (134_217_726, 0),
    (134_217_727, 0),
    (-134_217_727, 0),
    (134_217_728, 0),
    (-134_217_728, 0),
    (9_223_372_036_854_775_807, 0),
    (1, 1),
];

const RESIDUES: [(i64, i64); 12] = [
    (0, 0),
    (1, 0),
    (2, 0),
    (3, 0),
    (16, 0),
    (128, 0),
    (129, 0),
    (255, 0),
    (256, 0),
    (257, 0),
    (-1, 0),
    (0, 1),
];

const PAIRS: [(i64, i64); 18] = [
    (0, 0),
    (1, 0),
    (0, 1),
    (0, -1),
    (-1, 0),
    (1, 1),
    (2, -3),
    (-5, 12),
    (23170, 23170),
    (32767, -32768),
    (1_073_741_823, 0),
    (0, -1_073_741_823),
    (1_073_741_823, 1_073_741_823),
    (-1_073_741_823, 1_073_741_823),
    (1_073_741_824, 0),
    (0, 1_073_741_824),
    (-1_073_741_824, 0),
    (0, -9_223_372_036_854_775_808),
];

const WORDS: [(i64, i64); 12] = [
    (0, 0),
    (1, 0),
    (2, 0),
    (3, 0),
    (65_535, 0),
    (65_536, 0),
    (65_537, 0),
    (2_147_483_648, 0),
    (4_294_967_295, 0),
    (4_294_967_296, 0),
    (-1, 0),
    (1, -1),
];

const PARITIES: [(i64, i64); 5] = [(0, 0), (1, 0), (2, 0), (-1, 0), (0, 1)];

fn start(rt: &HostRuntime) -> anyhow::Result<()> {
    rt.println("integers")?;
    operations::<Integer>(rt, &INTEGERS)?;
    divisions::<Integer>(rt, &INTEGERS)?;
    rt.println("residues")?;
    operations::<Residue>(rt, &RESIDUES)?;
    divisions::<Residue>(rt, &RESIDUES)?;
    rt.println("pairs")?;
    operations::<Gaussian>(rt, &PAIRS)?;
    divisions::<Gaussian>(rt, &PAIRS)?;
    rt.println("words")?;
    operations::<Word>(rt, &WORDS)?;
    rt.println("parities")?;
    operations::<Parity>(rt, &PARITIES)?;
    Ok(())
}

fn main(rt: HostRuntime) -> anyhow::Result<()> {
    start(&rt)
}
