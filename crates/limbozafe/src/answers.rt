// Answers, as they are printed.
ghost use Rattle.std.specs.Prelude.{Some};
ghost use Rattle.uses.specs.Answers.{answer_of};
ghost use Rattle.limbozafe.specs.Printing.{printed};

use cards::ReadFault;
use rings::{Figures, Ring};
use std::fmt;
use uses::{Answer, Reply};

// What a call on a sheet answers.
#[derive(Clone, Copy)]
pub(crate) struct Printed<K>(pub(crate) Answer<K>);

impl<K: Ring> fmt::Display for Printed<K> {
    ghost output = { λ p. Some (printed K.kind (answer_of p.0)) };

    fn fmt<W: fmt::Write>(&self, f: &mut fmt::Formatter<W>) -> fmt::Result {
        match self.0 {
            Ok(Reply::Done) => f.write_str("ok"),
            Ok(Reply::Bytes(count)) => write!(f, "ok {count}"),
            Ok(Reply::Tells(true)) => f.write_str("ok equal"),
            Ok(Reply::Tells(false)) => f.write_str("ok different"),
            Ok(Reply::First(None)) => f.write_str("ok none"),
            Ok(Reply::First(Some(row))) => {
                let key = row.key;
                let figures = Figures(row.coefficient);
                write!(f, "ok {key} {figures}")
            }
            Err(
                ReadFault {
                    refusal,
                    byte: None,
                },
            ) => write!(f, "refused {refusal}"),
            Err(
                ReadFault {
                    refusal,
                    byte: Some(byte),
                },
            ) => write!(f, "refused {refusal} at {byte}"),
        }
    }
}
