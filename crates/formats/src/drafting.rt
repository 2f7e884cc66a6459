// Making a format: a draft takes variables one by one, and closing uses it up.
ghost use Rattle.std.specs.Prelude.{◌≡◌, [], ◌∷◌, ◌++◌, Some, None, MatchResult};
ghost use Rattle.refusals.specs.declared.Refusal.TheVariants.{NoVariables};
ghost use Rattle.formats.specs.Variables.{refusal, variable};
ghost use Rattle.formats.specs.Drafts.{drafted, variables};

use crate::draft::Draft;
use crate::format::Format;
use crate::variables::Variables;
use refusals::Refusal;

impl Draft {
    // A draft without variables.
    pub fn new() -> Draft
        ensures { drafted result ≡ [] }
    {
        Draft {
            variables: Variables::new(),
        }
    }

    // The draft with one variable more; or the refusal, and the draft as it was.
    pub fn add(self, letter: u8, width: u32) -> Result<Draft, (Refusal, Draft)>
        ensures { MatchResult result (λ d. (refusal (drafted self) letter width ≡ None) × (drafted d ≡ drafted self ++ variable letter width ∷ [])) (λ e. (refusal (drafted self) letter width ≡ Some e.0) × (e.1 ≡ self)) }
    {
        self.variables
            .with(letter, width)
            .map(|variables| Draft { variables })
            .map_err(|refusal| (refusal, self))
    }

    // The format of the draft's variables. A draft without any comes back.
    pub fn close(self) -> Result<Format, (Refusal, Draft)>
        ensures { MatchResult result (λ f. variables f ≡ drafted self) (λ e. (drafted self ≡ []) × (e ≡ (NoVariables, self))) }
    {
        if self.variables.as_slice().is_empty() {
            return Err((Refusal::NoVariables, self));
        }
        Ok(Format {
            variables: self.variables,
        })
    }
}
