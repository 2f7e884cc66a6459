// The quotient of two Gaussian integers that fit: exact, or refused. It always fits: no part of it is larger than the
// largest part of the dividend.
ghost use Rattle.std.specs.Prelude.{◌≡◌, ◌≢◌, cond, pos, ◌<ℤ◌, Ok, Err};
ghost use Rattle.refusals.specs.declared.Refusal.TheVariants.{NoQuotient};
ghost use Rattle.rings.specs.Gaussian.{nought};
ghost use Rattle.gaussian.specs.Gaussian.{number, of, quotient, shared, shares};
ghost use Rattle.gaussian.specs.Member.{meant};

use crate::member::Member;
use crate::product::{norm_of, product_of};
use crate::value::Gaussian;
use refusals::Refusal;

// Both parts divided by n, or a refusal where one leaves a remainder.
#[tactic(auto, using(crate::proofs::Words::divisions))]
fn shared(z: Gaussian, n: i64) -> Result<Gaussian, Refusal>
    requires { pos 0 <ℤ n }
    ensures { result ≡ cond (shares (number z) n) (Ok (of (shared (number z) n))) (Err NoQuotient) }
{
    if z.real % n == 0 && z.imaginary % n == 0 {
        Ok(Gaussian {
            real: z.real / n,
            imaginary: z.imaginary / n,
        })
    } else {
        Err(Refusal::NoQuotient)
    }
}

pub(crate) fn quotient_of(z: Member, w: Member) -> Result<Gaussian, Refusal>
    requires { meant w ≢ nought }
    ensures { result ≡ quotient (meant z) (meant w) }
{
    shared(product_of(z, w.conjugate()), norm_of(w))
}
