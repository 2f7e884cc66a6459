// The Gaussian integers that fit.
ghost use Rattle.gaussian.specs.Gaussian.{Below};

use crate::value::{Gaussian, in_range};

// A Gaussian integer whose parts both fit.
#[derive(Clone, Copy, PartialEq, Eq)]
pub(crate) struct Member {
    pub(crate) real: i64,
    pub(crate) imaginary: i64,
    ghost real_below: { Below 30 real },
    ghost imaginary_below: { Below 30 imaginary },
}

// The Gaussian integer that a content means.
impl From<Gaussian> for Member {
    ghost use Rattle.std.specs.Prelude.{◌≡◌};
    ghost use Rattle.gaussian.specs.Gaussian.{held};
    ghost use Rattle.gaussian.specs.Member.{meant};

    ghost from_gives = { λ v z. meant z ≡ held v };

    fn from(v: Gaussian) -> Member {
        if in_range(v.real) && in_range(v.imaginary) {
            Member {
                real: v.real,
                imaginary: v.imaginary,
            }
        } else {
            Member::ZERO
        }
    }
}

impl Member {
    ghost use Rattle.std.specs.Prelude.{◌≡◌};
    ghost use Rattle.rings.specs.Gaussian.{conjugate};
    ghost use Rattle.gaussian.specs.Member.{meant};

    pub(crate) const ZERO: Member = Member {
        real: 0,
        imaginary: 0,
    };

    pub(crate) fn conjugate(self) -> Member
        ensures { meant result ≡ conjugate (meant self) }
    {
        Member {
            real: self.real,
            imaginary: -self.imaginary,
        }
    }
}
