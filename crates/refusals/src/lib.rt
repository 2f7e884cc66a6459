// Why a call was refused. Every refusal of the kernel has one of these causes, and each cause has its number.
#![tactic(auto)]

ghost use Rattle.std.specs.Prelude.{◌≡◌, Some};
ghost use Rattle.std.specs.Fmt.{decimal};
ghost use Rattle.refusals.specs.Numbers.{number};

use std::error::Error;
use std::fmt;

#[derive(Clone, Copy, Debug, PartialEq, Eq)]
pub enum Refusal {
    // the letter is not A to Z, or is in the draft already
    Letter = 1,
    // the width is 0, above 16, or missing
    Width = 2,
    // a ninth variable, or more than 64 bits in all
    TooWide = 3,
    // a draft without variables was closed
    NoVariables = 4,
    // the place is above 7
    Place = 5,
    // the variable is not in the format
    Variable = 6,
    // the byte may not stand there on a card
    Byte = 7,
    // a nineteenth digit
    Digits = 8,
    // the text ends before the deck does
    TextEnds = 9,
    // the coefficient does not fit its kind
    Unfit = 10,
    // the exponent is negative or above its field
    Exponent = 11,
    // more rows than an area holds
    Rows = 12,
    // the divisor is zero
    ZeroDivisor = 13,
    // there is no quotient
    NoQuotient = 14,
    // the quotient of two coefficients does not fit its kind
    QuotientUnfit = 15,
    // the output is too short
    Output = 16,
    // k is above the count of variables
    Prefix = 17,
    // the host asked for an operation that there is not
    Operation = 18,
}

impl Refusal {
    // The number under which docs/REFUSALS.md lists the cause.
    pub fn number(self) -> u8
        ensures { result ≡ number self }
    {
        self as u8
    }
}

// Writes the number.
impl fmt::Display for Refusal {
    ghost output = { λ c. Some (decimal (number c)) };

    fn fmt<W: fmt::Write>(&self, f: &mut fmt::Formatter<W>) -> fmt::Result {
        self.number().fmt(f)
    }
}

impl Error for Refusal {}
