// The arithmetic of tables as definitions on lists of rows, and what it means. The definitions are in specs/; nothing here runs.
#![tactic(auto)]

ghost use Rattle.std.specs.Prelude.{◌≡◌, ℕ, true, List};
ghost use Rattle.formats.specs.Drafts.{Sound};
ghost use Rattle.formats.specs.declared.variable.Variable.{Variable as VariableOf};
ghost use Rattle.arithmetic.specs.Theorems.{TableArithmetic};
ghost use Rattle.arithmetic.specs.Quotients.{Quotients};

use rings::{Domain, Ring};

// On canonical rows, the arithmetic of tables is that of polynomials, or is refused with its cause.
pub fn table_arithmetic<K: Ring>()
    ensures { (vs : List VariableOf) (c : ℕ) → Sound vs → TableArithmetic K.kind vs c }
{}

// Exact division of canonical rows finds the quotient of polynomials exactly if there is one, unless a limit stops it.
pub fn exact_division<K: Domain>()
    ensures { (vs : List VariableOf) (c : ℕ) → Sound vs → K.Ring.whole ≡ true → Quotients K.Ring.kind K.quotient vs c }
{}
