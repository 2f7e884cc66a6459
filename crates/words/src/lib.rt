// The whole numbers modulo 4,294,967,296, as a coefficient kind of one figure. No domain.
#![tactic(auto)]

ghost use Rattle.std.specs.Prelude.{false};
ghost use Rattle.words.specs.Words.{words};
ghost use Rattle.words.specs.Laws.{word_ring, value_laws, figure_laws};
ghost use Rattle.std.proofs.lemmas.Bool.{false≢true};

use refusals::Refusal;
use rings::{Ring, number_up_to};

// Every content is a value. The machine's wrapping arithmetic is that of the ring: no remainder is taken, as in `residues`.
#[derive(Clone, Copy, Debug)]
pub struct Word {
    pub number: u32,
}

impl Ring for Word {
    ghost kind = { words };

    // 65,536 times 65,536 is zero
    ghost whole = { false };

    ghost ring = { word_ring };

    ghost values = { value_laws };

    ghost writing = { figure_laws };

    ghost wholeness = { λ e. absurd (false≢true e) };

    fn zero() -> Word {
        Word { number: 0 }
    }

    fn one() -> Word {
        Word { number: 1 }
    }

    fn is_zero(self) -> bool {
        self.number == 0
    }

    fn equals(self, other: Word) -> bool {
        self.number == other.number
    }

    fn plus(self, other: Word) -> Result<Word, Refusal> {
        Ok(Word {
            number: self.number.wrapping_add(other.number),
        })
    }

    fn times(self, other: Word) -> Result<Word, Refusal> {
        Ok(Word {
            number: self.number.wrapping_mul(other.number),
        })
    }

    fn negative(self) -> Word {
        Word {
            number: self.number.wrapping_neg(),
        }
    }

    #[tactic(auto, using(rings::proofs::Remainders::products))]
    fn multiple(self, n: u16) -> Result<Word, Refusal> {
        Ok(Word {
            number: u32::from(n).wrapping_mul(self.number),
        })
    }

    fn figure_count() -> u8 {
        1
    }

    fn figures(self) -> (i64, i64) {
        (i64::from(self.number), 0)
    }

    fn from_figures(first: i64, second: i64) -> Result<Word, Refusal> {
        let number = number_up_to(u32::MAX, first, second)?;
        Ok(Word { number })
    }
}
