// A format that is being made.
use crate::variables::Variables;

// The variables so far.
#[derive(Drop)]
pub struct Draft {
    pub(crate) variables: Variables,
}
