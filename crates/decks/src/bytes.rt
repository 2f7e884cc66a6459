// Refusals with their bytes.
ghost use Rattle.std.specs.Prelude.{◌≡◌};
ghost use Rattle.decks.specs.Faults.{at_byte};

use crate::fault::Fault;
use refusals::Refusal;

// The answer, and its refusal at the byte.
pub fn at_byte<T>(answer: Result<T, Refusal>, byte: usize) -> Result<T, Fault>
    ensures { result ≡ at_byte answer byte }
{
    answer.map_err(|refusal| Fault { refusal, byte })
}
