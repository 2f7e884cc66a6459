// What a whole use of a sheet promises. The definitions are in specs/; nothing here runs.
#![tactic(auto)]

ghost use Rattle.std.specs.Prelude.{◌≡◌, true, false, List};
ghost use Rattle.formats.specs.Drafts.{Sound};
ghost use Rattle.formats.specs.declared.variable.Variable.{Variable as VariableOf};
ghost use Rattle.arithmetic.specs.Dividing.{Over};
ghost use Rattle.conduct.specs.Uses.{Promise};

use rings::{Domain, Ring};

// Over a domain, for every format: canonical at every moment; one polynomial, one table, one deck; divides exactly when divisible.
pub fn uses_over_domains<K: Domain>()
    ensures { (vs : List VariableOf) → Sound vs → K.Ring.whole ≡ true → Promise K.Ring.kind K.quotient vs true }
{}

// Over every kind, for uses without a division.
pub fn uses_over_rings<K: Ring>()
    ensures { (over : Over K) (vs : List VariableOf) → Sound vs → Promise K.kind over vs false }
{}
