// The greatest exponents of several keys, and whether a product stays within the fields.
ghost use Rattle.std.specs.Prelude.{◌≡◌, length, take};
ghost use Rattle.formats.specs.Drafts.{variables};
ghost use Rattle.formats.specs.Exponents.{added, greater};
ghost use Rattle.formats.specs.Keys.{unpack, within};

use crate::format::Format;
use std::array;

impl Format {
    // At each variable the greater of `most` and the exponent in the key. What stands past the last variable is taken as it is.
    pub fn greatest(&self, most: &[u16; 8], key: u64) -> [u16; 8]
        ensures { result ≡ greater most.now (unpack (variables self.now) key) }
    {
        let exponents = self.unpack(key);
        array::from_fn(|i| most[i].max(exponents[i]))
    }

    // Whether no exponent in the key, added to that of `most`, passes its field. What stands past the last variable is not looked at.
    pub fn allows(&self, most: &[u16; 8], key: u64) -> bool
        ensures { result ≡ within (variables self.now) (added (take (length (variables self.now)) most.now) (unpack (variables self.now) key)) }
    {
        self.fields().zip(most).all(|(field, most)| {
            (u32::from(*most) + u32::from(field.of(key))) >> field.width == 0
        })
    }
}
