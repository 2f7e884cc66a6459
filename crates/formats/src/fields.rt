// The fields of a format's keys.
ghost use Rattle.std.specs.Prelude.{◌≡◌, ℕ, List};
ghost use Rattle.std.specs.Iterator.{YieldsFirstBy, item_count};
ghost use Rattle.std.specs.Option.{option_map};
ghost use Rattle.std.specs.List.{slice_get};
ghost use Rattle.formats.specs.Drafts.{variables};
ghost use Rattle.formats.specs.Keys.{places};
ghost use Rattle.formats.specs.Variables.{Spans};

use crate::field::Field;
use crate::format::Format;
use crate::variable::{Variable, bits};
use std::marker::Model;

// The fields of the variables that are left, which take the lowest `shift` bits of a key.
#[derive(Drop)]
pub(crate) struct Fields<'a> {
    variables: &'a [Variable],
    shift: u32,
}

impl<'a> Model for Fields<'a> {
    ghost Value = { List (ℕ × ℕ) };

    ghost view = { λ f. places f.variables.now };

    ghost invariant = { λ f. Spans f.shift f.variables.now };
}

impl<'a> Iterator for Fields<'a> {
    type Item = Field;

    ghost next_gives = { YieldsFirstBy (λ f. (f.shift, f.width)) (λ left. left) };

    ghost remaining = { item_count (λ left. left) };

    fn next(&mut self) -> Option<Field> {
        let (variable, after) = self.variables.split_first()?;
        self.variables = after;
        self.shift -= u32::from(variable.width);
        Some(Field {
            shift: self.shift,
            width: variable.width,
        })
    }
}

impl Format {
    // The fields of a key, in the order of the variables.
    pub(crate) fn fields(&self) -> Fields<'_>
        ensures { result ≡ places (variables self.now) }
    {
        Fields {
            variables: self.variables(),
            shift: self.bits(),
        }
    }

    // The field of a variable, if there is such a variable.
    pub(crate) fn field(&self, variable: usize) -> Option<Field>
        ensures { option_map (λ f. (f.shift, f.width)) result ≡ slice_get (places (variables self.now)) variable }
    {
        let (variable, after) = self.variables().get(variable..)?.split_first()?;
        Some(Field {
            shift: bits(after),
            width: variable.width,
        })
    }
}
