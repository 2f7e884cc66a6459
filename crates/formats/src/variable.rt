// A variable of a format, and questions on a list of them.
ghost use Rattle.std.specs.Prelude.{◌≡◌, ◌≤◌};
ghost use Rattle.formats.specs.Variables.{used, total};

// Its letter, as a byte, and the width of its exponents in bits.
#[derive(Clone, Copy, Debug, PartialEq, Eq)]
pub struct Variable {
    pub letter: u8,
    pub width: u8,
}

// Whether one of the variables has the letter.
pub(crate) fn uses(variables: &[Variable], letter: u8) -> bool
    ensures { result ≡ used letter variables.now }
{
    variables.iter().any(|v| v.letter == letter)
}

// How many bits the exponents of the variables have together.
#[tactic(auto, using(crate::proofs::Walks::total_is_sum))]
pub(crate) fn bits(variables: &[Variable]) -> u32
    requires { total variables.now ≤ 64 }
    ensures { result ≡ total variables.now }
{
    variables.iter().map(|v| u32::from(v.width)).sum()
}
