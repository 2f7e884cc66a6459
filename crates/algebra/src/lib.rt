// Polynomials as mathematics. The definitions are in specs/, the proofs in proofs/; nothing here runs.
// Each theorem is the contract of a function that does nothing, for every kind that keeps the laws.
#![tactic(auto)]

ghost use Rattle.std.specs.Prelude.{◌≡◌, ℕ, ◌<◌, true, List};
ghost use Rattle.formats.specs.declared.variable.Variable.{Variable as VariableOf};
ghost use Rattle.algebra.specs.Polynomials.{Poly};
ghost use Rattle.algebra.specs.Theorems.{PolynomialRing, Closed, Derivatives, Truncations, Substitutions, Keys, RowsOfPolynomials, LeadingTerms};

use rings::Ring;

// Sum and product make the polynomials a commutative ring.
pub fn polynomial_ring<K: Ring>()
    ensures { PolynomialRing K.Ring.kind.ops }
{}

// What is made of polynomials is a polynomial.
pub fn closed<K: Ring>()
    ensures { (n : ℕ) → Closed K.Ring.kind.ops n }
{}

// The derivative is linear and keeps the product rule.
pub fn derivatives<K: Ring>()
    ensures { Derivatives K.Ring.kind.ops }
{}

// Truncation is linear, and truncating a product needs only truncated factors.
pub fn truncations<K: Ring>()
    ensures { Truncations K.Ring.kind.ops }
{}

// Substitution respects sum and product.
pub fn substitutions<K: Ring>()
    ensures { (n v : ℕ) (q : Poly K.Ring.kind.ops) → v < n → Substitutions K.Ring.kind.ops n v q }
{}

// Keys are ordered as their lists of exponents are, and add as they do.
pub fn keys()
    ensures { (vs : List VariableOf) → Keys vs }
{}

// One polynomial has one table of canonical rows, and one table one polynomial.
pub fn rows_of_polynomials<K: Ring>()
    ensures { (vs : List VariableOf) → RowsOfPolynomials K.Ring.kind vs }
{}

// Where nonzero members have a nonzero product: leading terms multiply, a nonzero factor cancels, and division by leading terms finds the quotient exactly if there is one.
pub fn leading_terms<K: Ring>()
    ensures { (n : ℕ) → K.Ring.whole ≡ true → LeadingTerms K.Ring.kind.ops n }
{}
