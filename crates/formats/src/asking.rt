// What can be asked of a format.
ghost use Rattle.std.specs.Prelude.{◌≡◌, length, Decides};
ghost use Rattle.std.specs.List.{slice_get};
ghost use Rattle.formats.specs.Drafts.{variables, Sound};
ghost use Rattle.formats.specs.Variables.{total};

use crate::format::Format;
use crate::variable::{Variable, bits};

impl Format {
    // The variables, in order.
    pub fn variables(&self) -> &[Variable]
        ensures list { result.now ≡ variables self.now }
        ensures sound { Sound result.now }
    {
        self.variables.as_slice()
    }

    // How many variables there are.
    pub fn count(&self) -> usize
        ensures { result ≡ length (variables self.now) }
    {
        self.variables().len()
    }

    // How many bits a key has.
    pub fn bits(&self) -> u32
        ensures { result ≡ total (variables self.now) }
    {
        bits(self.variables())
    }

    // The variable of a number, counted from 0.
    pub fn variable(&self, number: usize) -> Option<Variable>
        ensures { result ≡ slice_get (variables self.now) number }
    {
        self.variables().get(number).copied()
    }

    // Whether the two have the same letters and widths in the same order.
    pub fn alike(&self, other: &Format) -> bool
        ensures { Decides result (variables self.now ≡ variables other.now) }
    {
        self.variables() == other.variables()
    }
}
