// The coefficient kind of a sheet.
ghost use Rattle.limbozafe.specs.Kinds.{kind};

use crate::fault::Fault;
use crate::line_words::FromWord;

// A coefficient kind, by its name in scripts.
#[derive(Clone, Copy, PartialEq, Eq)]
pub(crate) enum Kind {
    Integers,
    Residues,
    Pairs,
    Words,
}

impl FromWord for Kind {
    ghost says = { kind };

    fn from_word(word: &[u8]) -> Result<Kind, Fault> {
        match word {
            b"integers" => Ok(Kind::Integers),
            b"residues" => Ok(Kind::Residues),
            b"pairs" => Ok(Kind::Pairs),
            b"words" => Ok(Kind::Words),
            _ => Err(Fault::Kind),
        }
    }
}
