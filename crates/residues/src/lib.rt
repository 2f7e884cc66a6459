// The whole numbers modulo 257, as a coefficient kind of one figure. A domain.
#![tactic(auto)]

ghost use Rattle.std.specs.Prelude.{◌≡◌, ◌*◌, ◌%◌, ◌<◌, true};
ghost use Rattle.residues.specs.Residues.{of, residues, reciprocal, divided};
ghost use Rattle.residues.specs.Laws.{residue_ring, value_laws, figure_laws, no_zero_divisors};
ghost use Rattle.residues.specs.Laws as laws;

use crate::reciprocals::RECIPROCALS;
use refusals::Refusal;
use rings::{Domain, Ring, number_up_to};

mod reciprocals;

// A content whose number is 257 or more is no value: it means the number's remainder.
#[derive(Clone, Copy, Debug)]
pub struct Residue {
    pub number: u16,
}

// The value of a whole number's class.
impl From<u32> for Residue {
    ghost from_gives = { λ n r. r ≡ of (n % 257) };

    fn from(n: u32) -> Residue {
        Residue {
            number: (n % 257) as u16,
        }
    }
}

// The number from 0 to 256 that a content means.
impl From<Residue> for u16 {
    ghost from_gives = { λ v n. n ≡ v.number % 257 };

    fn from(v: Residue) -> u16 {
        v.number % 257
    }
}

// The value of a product.
fn product(a: u16, b: u16) -> Residue
    ensures { result ≡ of ((a * b) % 257) }
{
    Residue::from(u32::from(a) * u32::from(b))
}

impl Ring for Residue {
    ghost kind = { residues };

    ghost whole = { true };

    ghost ring = { residue_ring };

    ghost values = { value_laws };

    ghost writing = { figure_laws };

    ghost wholeness = { λ _. no_zero_divisors };

    fn zero() -> Residue {
        Residue { number: 0 }
    }

    fn one() -> Residue {
        Residue { number: 1 }
    }

    fn is_zero(self) -> bool {
        u16::from(self) == 0
    }

    fn equals(self, other: Residue) -> bool {
        u16::from(self) == u16::from(other)
    }

    fn plus(self, other: Residue) -> Result<Residue, Refusal> {
        let sum = u32::from(self.number) + u32::from(other.number);
        Ok(Residue::from(sum))
    }

    #[tactic(auto, using(rings::proofs::Remainders::products))]
    fn times(self, other: Residue) -> Result<Residue, Refusal> {
        Ok(product(self.number, other.number))
    }

    fn negative(self) -> Residue {
        Residue::from(u32::from(257 - u16::from(self)))
    }

    #[tactic(auto, using(rings::proofs::Remainders::products))]
    fn multiple(self, n: u16) -> Result<Residue, Refusal> {
        Ok(product(n, self.number))
    }

    fn figure_count() -> u8 {
        1
    }

    fn figures(self) -> (i64, i64) {
        (i64::from(u16::from(self)), 0)
    }

    fn from_figures(first: i64, second: i64) -> Result<Residue, Refusal> {
        let number = number_up_to(256, first, second)?;
        Ok(Residue {
            number: number as u16,
        })
    }
}

// The number from 1 to 256 whose product with n leaves 1, where n is from 1 to 256.
fn reciprocal_of(n: u16) -> u16
    requires positive { 0 < n }
    requires below { n < 257 }
    ensures { result ≡ reciprocal n }
{
    RECIPROCALS[usize::from(n) - 1]
}

impl Domain for Residue {
    ghost quotient = { divided };

    ghost division = { laws.division_law };

    fn divide(self, other: Residue) -> Result<Residue, Refusal> {
        let divisor = u16::from(other);
        if divisor == 0 {
            return Err(Refusal::ZeroDivisor);
        }
        Ok(product(self.number, reciprocal_of(divisor)))
    }
}
