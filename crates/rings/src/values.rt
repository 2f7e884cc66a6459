// What follows for every kind.
ghost use Rattle.std.specs.Prelude.{◌≡◌};
ghost use Rattle.rings.specs.Kinds.{Telling};

use crate::ring::Ring;

// A kind that keeps the laws has two values at least, and does not refuse every sum. Nothing runs here: the theorem is the contract.
pub fn tells_apart<K: Ring>()
    ensures { Telling K.kind }
{}
