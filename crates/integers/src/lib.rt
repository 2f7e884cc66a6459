// The whole numbers of magnitude up to 134,217,727, as a coefficient kind of one figure. A domain.
#![tactic(auto)]

ghost use Rattle.std.specs.Prelude.{◌≡◌, true};
ghost use Rattle.integers.specs.Integers.{fits, held, valued, integers, divided};
ghost use Rattle.rings.proofs.Whole.{whole_ring, whole_no_zero_divisors};
ghost use Rattle.integers.specs.Laws.{value_laws, figure_laws};
ghost use Rattle.integers.specs.Laws as laws;

use refusals::Refusal;
use rings::{Domain, Ring};

// The largest magnitude that fits.
const LIMIT: i64 = 134_217_727;

// A content whose figure is beyond the limit is no value: it means zero.
#[derive(Clone, Copy, Debug)]
pub struct Integer {
    pub figure: i64,
}

// Whether a whole number fits.
fn in_range(z: i64) -> bool
    ensures { result ≡ fits z }
{
    (-LIMIT..=LIMIT).contains(&z)
}

// The value of a whole number.
impl TryFrom<i64> for Integer {
    type Error = Refusal;

    ghost try_from_gives = { λ z r. r ≡ valued z };

    fn try_from(z: i64) -> Result<Integer, Refusal> {
        if in_range(z) {
            Ok(Integer { figure: z })
        } else {
            Err(Refusal::Unfit)
        }
    }
}

// The whole number that a content means.
impl From<Integer> for i64 {
    ghost from_gives = { λ v z. z ≡ held v };

    fn from(v: Integer) -> i64 {
        if in_range(v.figure) { v.figure } else { 0 }
    }
}

impl Ring for Integer {
    ghost kind = { integers };

    ghost whole = { true };

    ghost ring = { whole_ring };

    ghost values = { value_laws };

    ghost writing = { figure_laws };

    ghost wholeness = { λ _. whole_no_zero_divisors };

    fn zero() -> Integer {
        Integer { figure: 0 }
    }

    fn one() -> Integer {
        Integer { figure: 1 }
    }

    fn is_zero(self) -> bool {
        i64::from(self) == 0
    }

    fn equals(self, other: Integer) -> bool {
        i64::from(self) == i64::from(other)
    }

    fn plus(self, other: Integer) -> Result<Integer, Refusal> {
        Integer::try_from(i64::from(self) + i64::from(other))
    }

    fn times(self, other: Integer) -> Result<Integer, Refusal> {
        Integer::try_from(i64::from(self) * i64::from(other))
    }

    fn negative(self) -> Integer {
        Integer {
            figure: -i64::from(self),
        }
    }

    fn multiple(self, n: u16) -> Result<Integer, Refusal> {
        Integer::try_from(i64::from(n) * i64::from(self))
    }

    fn figure_count() -> u8 {
        1
    }

    fn figures(self) -> (i64, i64) {
        (i64::from(self), 0)
    }

    fn from_figures(first: i64, second: i64) -> Result<Integer, Refusal> {
        if second != 0 {
            return Err(Refusal::Unfit);
        }
        Integer::try_from(first)
    }
}

impl Domain for Integer {
    ghost quotient = { divided };

    ghost division = { laws.division_law };

    fn divide(self, other: Integer) -> Result<Integer, Refusal> {
        let a = i64::from(self);
        let b = i64::from(other);
        if b == 0 {
            return Err(Refusal::ZeroDivisor);
        }
        if a % b != 0 {
            return Err(Refusal::NoQuotient);
        }
        Ok(Integer { figure: a / b })
    }
}
