// A kind that also divides.
ghost use Rattle.std.specs.Prelude.{◌≡◌, true, Result as ResultOf};
ghost use Rattle.refusals.specs.declared.Refusal.{Refusal as RefusalOf};
ghost use Rattle.rings.specs.Kinds.{Division};

use crate::ring::Ring;
use refusals::Refusal;

pub trait Domain: Ring {
    // what dividing the first by the second answers
    ghost quotient: { Self → Self → ResultOf Self RefusalOf };

    fn divide(self, other: Self) -> Result<Self, Refusal>
        ensures whole { Self.Ring.whole ≡ true }
        ensures answer { result ≡ quotient self other };

    ghost division: { (a b : Self) → Division Self.Ring.kind a b (quotient a b) };
}
