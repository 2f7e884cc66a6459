// A call on a sheet, and what it answers.
ghost use Rattle.std.specs.Prelude.{◌≡◌, ℕ};
ghost use Rattle.uses.specs.Performing.{call_of};

use crate::division::NoDivision;
use cards::ReadFault;
use rows::Row;

// A call with its arguments, in the order that the sheet's own calls take them. A division carries a leave to divide, D.
#[derive(Clone, Copy)]
pub enum Call<'a, D> {
    // the deck at the start of the text
    Read(usize, &'a [u8]),
    Constant(usize, i64, i64),
    Variable(usize, usize),
    Copied(usize, usize),
    Negate(usize, usize),
    Add(usize, usize, usize),
    Subtract(usize, usize, usize),
    Multiply(usize, usize, usize),
    Divide(usize, usize, usize, D),
    Differentiate(usize, usize, usize),
    Substitute(usize, usize, usize, usize),
    Truncate(usize, usize, usize, u32),
    MultiplyTruncate(usize, usize, usize, usize, u32),
    // the cards go to the start of the output that is lent
    Write(usize),
    Equal(usize, usize),
    Leading(usize),
}

impl<'a> Call<'a, NoDivision> {
    // The same call, for a list whose divisions carry a leave D.
    pub fn among<D>(self) -> Call<'a, D>
        ensures { (n : ℕ) → call_of n result ≡ call_of n self.entry }
    {
        match self {
            Call::Read(r, text) => Call::Read(r, text),
            Call::Constant(r, a, b) => Call::Constant(r, a, b),
            Call::Variable(r, v) => Call::Variable(r, v),
            Call::Copied(r, p) => Call::Copied(r, p),
            Call::Negate(r, p) => Call::Negate(r, p),
            Call::Add(r, p, q) => Call::Add(r, p, q),
            Call::Subtract(r, p, q) => Call::Subtract(r, p, q),
            Call::Multiply(r, p, q) => Call::Multiply(r, p, q),
            Call::Divide(_, _, _, none) => match none {},
            Call::Differentiate(r, p, v) => Call::Differentiate(r, p, v),
            Call::Substitute(r, p, q, v) => Call::Substitute(r, p, q, v),
            Call::Truncate(r, p, k, n) => Call::Truncate(r, p, k, n),
            Call::MultiplyTruncate(r, p, q, k, n) => Call::MultiplyTruncate(r, p, q, k, n),
            Call::Write(p) => Call::Write(p),
            Call::Equal(p, q) => Call::Equal(p, q),
            Call::Leading(p) => Call::Leading(p),
        }
    }
}

// What an accepted call tells.
#[derive(Clone, Copy)]
pub enum Reply<K> {
    Done,
    // how many bytes were read or written
    Bytes(usize),
    // whether two places are equal
    Tells(bool),
    // the leading row, if there is one
    First(Option<Row<K>>),
}

// The reply, or the refusal; of a text with the byte.
pub type Answer<K> = Result<Reply<K>, ReadFault>;
