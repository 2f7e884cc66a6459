// One exponent of a key, read and changed.
ghost use Rattle.std.specs.Prelude.{◌≡◌};
ghost use Rattle.formats.specs.Drafts.{variables};
ghost use Rattle.formats.specs.Exponents.{exponent};
ghost use Rattle.formats.specs.Keys.{unpack, replaced};

use crate::format::Format;
use refusals::Refusal;

impl Format {
    // The exponent of a variable in a key; 0 if there is no such variable.
    pub fn exponent(&self, key: u64, variable: usize) -> u16
        ensures { result ≡ exponent variable (unpack (variables self.now) key) }
    {
        self.field(variable).map_or(0, |field| field.of(key))
    }

    // The key with another exponent of a variable.
    pub fn replace(&self, key: u64, variable: usize, exponent: u16) -> Result<u64, Refusal>
        ensures { result ≡ replaced (variables self.now) key variable exponent }
    {
        if variable >= self.count() {
            return Err(Refusal::Variable);
        }
        let mut exponents = self.unpack(key);
        exponents[variable] = exponent;
        self.pack(&exponents)
    }
}
