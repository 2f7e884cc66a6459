// A closed format.
ghost use Rattle.std.specs.Prelude.{◌<◌};

use crate::variables::Variables;

// Its variables, one at least.
#[derive(Clone, Copy)]
pub struct Format {
    pub(crate) variables: Variables,
    ghost some: { 0 < variables.count },
}
