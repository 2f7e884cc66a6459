// What is wrong with a command of a script.
ghost use Rattle.std.specs.Prelude.{Some};
ghost use Rattle.limbozafe.specs.Faults.{message};

use std::fmt;

#[derive(Clone, Copy)]
pub(crate) enum Fault {
    Command,
    Kind,
    Number,
    Missing,
    TooMany,
    NoFormat,
    File,
    NoDivision,
}

impl fmt::Display for Fault {
    ghost output = { λ f. Some (message f) };

    fn fmt<W: fmt::Write>(&self, f: &mut fmt::Formatter<W>) -> fmt::Result {
        f.write_str(match self {
            Fault::Command => "unknown command",
            Fault::Kind => "unknown kind",
            Fault::Number => "not a number, or too large",
            Fault::Missing => "a word is missing",
            Fault::TooMany => "a word too many",
            Fault::NoFormat => "no format has been accepted yet",
            Fault::File => "unknown file",
            Fault::NoDivision => "words do not divide",
        })
    }
}
