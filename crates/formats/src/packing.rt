// Exponents as a key, and back.
ghost use Rattle.std.specs.Prelude.{◌≡◌, ◌-◌, ◌^◌, ◌<◌, ◌++◌, length, take, replicate, IfOk};
ghost use Rattle.formats.specs.Drafts.{variables};
ghost use Rattle.formats.specs.Keys.{pack, unpack, packed, unit};
ghost use Rattle.formats.specs.Variables.{total};

use crate::format::Format;
use refusals::Refusal;

impl Format {
    // The key of one exponent for each variable. What stands past the last variable is not looked at.
    pub fn pack(&self, exponents: &[u16; 8]) -> Result<u64, Refusal>
        ensures key { result ≡ packed (variables self.now) exponents.now }
        ensures back { IfOk result (λ k. unpack (variables self.now) k ≡ take (length (variables self.now)) exponents.now) }
    {
        let mut key = 0;
        for (variable, exponent) in self.variables().iter().zip(exponents) {
            let exponent = u64::from(*exponent);
            if exponent >> variable.width != 0 {
                return Err(Refusal::Exponent);
            }
            key = (key << variable.width) + exponent;
        }
        Ok(key)
    }

    // The exponents in a key, and 0 past the last variable.
    pub fn unpack(&self, key: u64) -> [u16; 8]
        ensures exponents { result ≡ unpack (variables self.now) key ++ replicate (8 - length (variables self.now)) 0 }
        ensures back { key < 2 ^ total (variables self.now) → pack (variables self.now) result ≡ key }
    {
        let mut exponents = [0; 8];
        // By index: of what is written through `iter_mut`, a proof knows the length alone.
        for (i, field) in self.fields().enumerate() {
            exponents[i] = field.of(key);
        }
        exponents
    }

    // The key of a variable by itself.
    pub fn unit(&self, variable: usize) -> Result<u64, Refusal>
        ensures { result ≡ unit (variables self.now) variable }
    {
        self.field(variable)
            .map(|field| 1 << field.shift)
            .ok_or(Refusal::Variable)
    }
}
