// One key less another.
ghost use Rattle.std.specs.Prelude.{◌≡◌, ◌%◌, ◌^◌};
ghost use Rattle.formats.specs.Drafts.{variables};
ghost use Rattle.formats.specs.Exponents.{covers};
ghost use Rattle.formats.specs.Keys.{unpack, difference};
ghost use Rattle.formats.specs.Variables.{total};

use crate::format::Format;

impl Format {
    // Whether no exponent in `less` is above that in `key`.
    fn covers(&self, key: u64, less: u64) -> bool
        ensures { result ≡ covers (unpack (variables self.now) key) (unpack (variables self.now) less) }
    {
        self.fields().all(|field| field.of(key) >= field.of(less))
    }

    // The key without the bits above its fields.
    fn cleared(&self, key: u64) -> u64
        ensures { result ≡ key % 2 ^ total (variables self.now) }
    {
        let above = 64 - self.bits();
        (key << above) >> above
    }

    // The key of the exponents in `key` less those in `less`; none where one would be negative.
    pub fn difference(&self, key: u64, less: u64) -> Option<u64>
        ensures { result ≡ difference (variables self.now) key less }
    {
        self.covers(key, less)
            .then(|| self.cleared(key) - self.cleared(less))
    }
}
