// Decks as texts: how one is written, and what is read from one. The definitions are in specs/; nothing here runs.
#![tactic(auto)]

ghost use Rattle.std.specs.Prelude.{List};
ghost use Rattle.formats.specs.Drafts.{Sound};
ghost use Rattle.formats.specs.declared.variable.Variable.{Variable as VariableOf};
ghost use Rattle.texts.specs.Theorems.{DecksOfTables};

use rings::Ring;

// A written deck is read back, a table has its own deck, and a text gives the sum of its terms.
pub fn decks_of_tables<K: Ring>()
    ensures { (vs : List VariableOf) → Sound vs → DecksOfTables K.kind vs }
{}
