// A refusal, and the byte that it reports.
ghost use Rattle.std.specs.Prelude.{◌≡◌};

use refusals::Refusal;

#[derive(Clone, Copy, Debug)]
pub struct Fault {
    pub refusal: Refusal,
    pub byte: usize,
}

impl Fault {
    pub(crate) fn new(refusal: Refusal, byte: usize) -> Fault
        ensures { result ≡ record { refusal = refusal; byte = byte } }
    {
        Fault { refusal, byte }
    }
}
