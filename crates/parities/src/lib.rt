// The whole numbers modulo 2: the smallest kind that keeps the laws, as an instance for makers who bring their own.
// Each method is written out, as theirs will be: with `residues` it has only the helpers and the proofs of `rings` in common.
#![tactic(auto)]

ghost use Rattle.std.specs.Prelude.{false, refl};
ghost use Rattle.parities.specs.Parities.{parities};
ghost use Rattle.std.proofs.Common.{lit<, lit≤};
ghost use Rattle.rings.proofs.Remainders.{remainders_ring, modulo-values, modulo-figures};
ghost use Rattle.std.proofs.lemmas.Bool.{false≢true};

use refusals::Refusal;
use rings::{Ring, number_up_to};

// A content whose bit is above 1 is no value: it means the bit's remainder.
#[derive(Clone, Copy, Debug)]
pub struct Parity {
    pub bit: u8,
}

impl Ring for Parity {
    ghost kind = { parities };

    // it has no zero divisors, but a kind that does not divide need not say so
    ghost whole = { false };

    ghost ring = { remainders_ring _ (lit< tt) };

    ghost values = { modulo-values _ (lit< tt) _ _ (λ n. refl) };

    ghost writing = { modulo-figures _ (lit< tt) _ _ (λ n. refl) (lit≤ tt) };

    ghost wholeness = { λ e. absurd (false≢true e) };

    fn zero() -> Parity {
        Parity { bit: 0 }
    }

    fn one() -> Parity {
        Parity { bit: 1 }
    }

    fn is_zero(self) -> bool {
        self.bit % 2 == 0
    }

    fn equals(self, other: Parity) -> bool {
        self.bit % 2 == other.bit % 2
    }

    fn plus(self, other: Parity) -> Result<Parity, Refusal> {
        Ok(Parity {
            bit: (self.bit % 2 + other.bit % 2) % 2,
        })
    }

    #[tactic(auto, using(rings::proofs::Remainders::products))]
    fn times(self, other: Parity) -> Result<Parity, Refusal> {
        Ok(Parity {
            bit: ((u32::from(self.bit) * u32::from(other.bit)) % 2) as u8,
        })
    }

    fn negative(self) -> Parity {
        Parity { bit: self.bit % 2 }
    }

    #[tactic(auto, using(rings::proofs::Remainders::products))]
    fn multiple(self, n: u16) -> Result<Parity, Refusal> {
        Ok(Parity {
            bit: ((u32::from(n) * u32::from(self.bit)) % 2) as u8,
        })
    }

    fn figure_count() -> u8 {
        1
    }

    fn figures(self) -> (i64, i64) {
        (i64::from(self.bit % 2), 0)
    }

    fn from_figures(first: i64, second: i64) -> Result<Parity, Refusal> {
        let number = number_up_to(1, first, second)?;
        Ok(Parity { bit: number as u8 })
    }
}
