// Division.
ghost use Rattle.gaussian.specs.Gaussian.{divided};
ghost use Rattle.gaussian.specs.Laws as laws;

use crate::member::Member;
use crate::quotient::quotient_of;
use crate::value::Gaussian;
use refusals::Refusal;
use rings::Domain;

impl Domain for Gaussian {
    ghost quotient = { divided };

    ghost division = { laws.division_law };

    fn divide(self, other: Gaussian) -> Result<Gaussian, Refusal> {
        let w = Member::from(other);
        if w == Member::ZERO {
            return Err(Refusal::ZeroDivisor);
        }
        quotient_of(Member::from(self), w)
    }
}
