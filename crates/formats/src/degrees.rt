// Sums of exponents.
ghost use Rattle.std.specs.Prelude.{◌≡◌, take};
ghost use Rattle.formats.specs.Drafts.{variables};
ghost use Rattle.formats.specs.Exponents.{degree};
ghost use Rattle.formats.specs.Keys.{unpack};

use crate::format::Format;

impl Format {
    // The sum of the first `count` exponents in a key, or of all if there are fewer.
    pub fn degree(&self, key: u64, count: usize) -> u32
        ensures { result ≡ degree (take count (unpack (variables self.now) key)) }
    {
        self.fields()
            .take(count)
            .map(|field| u32::from(field.of(key)))
            .sum()
    }
}
