// The command: a script in, an answer for each of its commands out.
#![tactic(auto)]

mod answers;
mod calls;
mod command;
mod console;
mod fault;
mod kind;
mod line_words;
mod numbers;
mod script;
mod session;

use anyhow::ensure;
use session::run;
use std::io::Read;
use std::{env, fs, io};

const USAGE: &str = "usage: limbozafe [SCRIPT]
Carries out the commands of the file SCRIPT, or of standard input, one to a line,
and prints an answer for each. Ends with status 1 if a command was in error.

  kind K                     the coefficients of the next sheet:
                             integers, residues, pairs or words
  format X 8 Y 8             letters and widths in bits, for the next sheet
  open N                     a new sheet on N rows
  constant R F1 [F2]         place R: the constant with these figures
  variable R V               place R: the variable of number V, from 0
  read R [FILE]              place R: the deck in FILE, or on the lines that
                             follow, up to a line that is just a point
  copy R P                   place R: the rows of place P
  negate R P                 place R: the negative of place P
  add R P Q                  place R: the sum of places P and Q
  subtract R P Q             place R: P less Q
  multiply R P Q             place R: the product
  divide R P Q               place R: P divided by Q, exactly
  differentiate R P V        place R: the derivative of P by the variable V
  substitute R P Q V         place R: P with Q for the variable V
  truncate R P K N           place R: P without the rows whose first K
                             exponents add to more than N
  multiply-truncate R P Q K N   place R: the product, truncated so
  equal P Q                  whether two places have the same rows
  leading P                  the key and the figures of P's first row
  write P [ROOM]             the cards of place P

docs/SCRIPTS.md tells the language in full.";

// The script: the file that the first argument names, or else standard input.
fn read_script(rt: &HostRuntime, path: Option<String>) -> io::Result<Vec<u8>> {
    match path {
        Some(path) => fs::read(rt, path),
        None => {
            let mut text = Vec::new(rt.alloc());
            rt.stdin().read_to_end(&mut text)?;
            Ok(text)
        }
    }
}

fn start(rt: &HostRuntime) -> anyhow::Result<()> {
    let mut args = env::args(rt)?;
    let _program = args.next();
    let path = args.next();
    if path.as_ref().is_some_and(|word| word.as_str() == "--help") {
        rt.println(USAGE)?;
        return Ok(());
    }
    let text = read_script(rt, path)?;
    ensure!(
        run(rt, text.as_slice())?,
        "a command of the script was in error"
    );
    Ok(())
}

fn main(rt: HostRuntime) -> anyhow::Result<()> {
    start(&rt)
}
