// A row of a table: the packed key of an exponent list, and a coefficient. What tables are added up to is in specs/.
#![tactic(auto)]

ghost use Rattle.std.specs.Prelude.{◌≡◌};
ghost use Rattle.rows.specs.Tables.{blank};

use rings::Ring;

#[derive(Clone, Copy, Debug)]
pub struct Row<K> {
    pub key: u64,
    pub coefficient: K,
}

impl<K: Ring> Row<K> {
    // Key 0, coefficient zero: what a lent row holds that is no row of a table.
    pub fn blank() -> Row<K>
        ensures { result ≡ blank K.kind }
    {
        Row {
            key: 0,
            coefficient: K::zero(),
        }
    }
}
