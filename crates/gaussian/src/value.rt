// What is held, and which of it are values.
ghost use Rattle.std.specs.Prelude.{◌≡◌};
ghost use Rattle.gaussian.specs.Gaussian.{small, valued};

use refusals::Refusal;

// The largest magnitude of a part.
const LIMIT: i64 = 1_073_741_823;

// A content with a part beyond the limit is no value: it means zero.
#[derive(Clone, Copy, Debug)]
pub struct Gaussian {
    pub real: i64,
    pub imaginary: i64,
}

// Whether a part fits.
pub(crate) fn in_range(part: i64) -> bool
    ensures { result ≡ small part }
{
    (-LIMIT..=LIMIT).contains(&part)
}

// The value of the Gaussian integer with these parts, real and imaginary.
impl TryFrom<(i64, i64)> for Gaussian {
    type Error = Refusal;

    ghost try_from_gives = { λ parts r. r ≡ valued (record { real = parts.0; imaginary = parts.1 }) };

    fn try_from((real, imaginary): (i64, i64)) -> Result<Gaussian, Refusal> {
        if in_range(real) && in_range(imaginary) {
            Ok(Gaussian { real, imaginary })
        } else {
            Err(Refusal::Unfit)
        }
    }
}
