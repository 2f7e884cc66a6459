// Products of Gaussian integers that fit.
ghost use Rattle.std.specs.Prelude.{◌≡◌, ◌*ℤ◌};
ghost use Rattle.rings.specs.Gaussian.{product, norm};
ghost use Rattle.gaussian.specs.Gaussian.{number, Below};
ghost use Rattle.gaussian.specs.Member.{meant};

use crate::member::Member;
use crate::value::Gaussian;

// The product of two parts.
#[tactic(auto, using(crate::proofs::Words::words))]
pub(crate) fn part_product(a: i64, b: i64) -> i64
    requires first { Below 30 a }
    requires second { Below 30 b }
    ensures is { result ≡ a *ℤ b }
    ensures below { Below 60 result }
{
    a * b
}

#[tactic(auto, using(crate::proofs::Words::words))]
pub(crate) fn product_of(z: Member, w: Member) -> Gaussian
    ensures { number result ≡ product (meant z) (meant w) }
{
    Gaussian {
        real: part_product(z.real, w.real) - part_product(z.imaginary, w.imaginary),
        imaginary: part_product(z.real, w.imaginary) + part_product(z.imaginary, w.real),
    }
}

#[tactic(auto, using(crate::proofs::Words::words))]
pub(crate) fn norm_of(w: Member) -> i64
    ensures { result ≡ norm (meant w) }
{
    part_product(w.real, w.real) + part_product(w.imaginary, w.imaginary)
}
