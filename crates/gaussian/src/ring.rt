// The kind's arithmetic.
ghost use Rattle.std.specs.Prelude.{true};
ghost use Rattle.gaussian.specs.Gaussian.{gaussians};
ghost use Rattle.rings.proofs.Gaussian.{gaussian_ring, gaussian_no_zero_divisors};
ghost use Rattle.gaussian.specs.Laws.{value_laws, figure_laws};

use crate::member::Member;
use crate::product::{part_product, product_of};
use crate::value::Gaussian;
use refusals::Refusal;
use rings::Ring;

impl Ring for Gaussian {
    ghost kind = { gaussians };

    ghost whole = { true };

    ghost ring = { gaussian_ring };

    ghost values = { value_laws };

    ghost writing = { figure_laws };

    ghost wholeness = { λ _. gaussian_no_zero_divisors };

    fn zero() -> Gaussian {
        Gaussian {
            real: 0,
            imaginary: 0,
        }
    }

    fn one() -> Gaussian {
        Gaussian {
            real: 1,
            imaginary: 0,
        }
    }

    fn is_zero(self) -> bool {
        Member::from(self) == Member::ZERO
    }

    fn equals(self, other: Gaussian) -> bool {
        Member::from(self) == Member::from(other)
    }

    fn plus(self, other: Gaussian) -> Result<Gaussian, Refusal> {
        let z = Member::from(self);
        let w = Member::from(other);
        Gaussian::try_from((z.real + w.real, z.imaginary + w.imaginary))
    }

    fn times(self, other: Gaussian) -> Result<Gaussian, Refusal> {
        let p = product_of(Member::from(self), Member::from(other));
        Gaussian::try_from((p.real, p.imaginary))
    }

    fn negative(self) -> Gaussian {
        let z = Member::from(self);
        Gaussian {
            real: -z.real,
            imaginary: -z.imaginary,
        }
    }

    fn multiple(self, n: u16) -> Result<Gaussian, Refusal> {
        let z = Member::from(self);
        let n = i64::from(n);
        Gaussian::try_from((part_product(n, z.real), part_product(n, z.imaginary)))
    }

    fn figure_count() -> u8 {
        2
    }

    fn figures(self) -> (i64, i64) {
        let z = Member::from(self);
        (z.real, z.imaginary)
    }

    fn from_figures(first: i64, second: i64) -> Result<Gaussian, Refusal> {
        Gaussian::try_from((first, second))
    }
}
