// The variables of a draft or a format: one buffer of fixed size, since the kernel allocates nothing and a format is `Copy`.
ghost use Rattle.std.specs.Prelude.{◌≡◌, ◌≤◌, true, length, take};
ghost use Rattle.formats.specs.Variables.{lawful, total};

use crate::variable::{Variable, bits, uses};
use refusals::Refusal;

// The first `count` entries are the variables, in order.
#[derive(Clone, Copy)]
pub(crate) struct Variables {
    entries: [Variable; 8],
    count: usize,
    ghost counted: { length (take count entries) ≡ count },
    ghost few: { count ≤ 8 },
    ghost ok: { lawful (take count entries) ≡ true },
    ghost narrow: { total (take count entries) ≤ 64 },
}

impl Variables {
    ghost use Rattle.std.specs.Prelude.{[], ◌∷◌, ◌++◌, Some, None, MatchResult};
    ghost use Rattle.formats.specs.Variables.{refusal, variable};
    ghost use Rattle.formats.specs.Drafts.{entered};

    // No variables.
    pub(crate) fn new() -> Variables
        ensures { entered result ≡ [] }
    {
        Variables {
            entries: [Variable {
                letter: 0,
                width: 0,
            }; 8],
            count: 0,
        }
    }

    // The variables, in order.
    pub(crate) fn as_slice(&self) -> &[Variable]
        ensures list { result.now ≡ entered self.now }
    {
        &self.entries[..self.count]
    }

    // Whether a variable may be added; if not, why.
    fn test(&self, letter: u8, width: u32) -> Result<(), Refusal>
        ensures { MatchResult result (λ _. refusal (entered self.now) letter width ≡ None) (λ e. refusal (entered self.now) letter width ≡ Some e) }
    {
        let taken = self.as_slice();
        if !letter.is_ascii_uppercase() || uses(taken, letter) {
            return Err(Refusal::Letter);
        }
        if !(1..=16).contains(&width) {
            return Err(Refusal::Width);
        }
        if taken.len() >= 8 || bits(taken) + width > 64 {
            return Err(Refusal::TooWide);
        }
        Ok(())
    }

    // The variables with one more, or why it may not be added.
    pub(crate) fn with(mut self, letter: u8, width: u32) -> Result<Variables, Refusal>
        ensures { MatchResult result (λ v. (refusal (entered self) letter width ≡ None) × (entered v ≡ entered self ++ variable letter width ∷ [])) (λ e. refusal (entered self) letter width ≡ Some e) }
    {
        self.test(letter, width)?;
        self.entries[self.count] = Variable {
            letter,
            width: width as u8,
        };
        self.count += 1;
        Ok(self)
    }
}
