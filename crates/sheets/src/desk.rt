// What a sheet works on, between calls.
ghost use Rattle.sheets.specs.Worktops.{Free};

use crate::worktop::Worktop;
use rings::Ring;

// The first of the working areas is free: a call that needs at most this one leaves the running table, in the second, as it is.
#[derive(Drop)]
pub struct Desk<'a, K: Ring> {
    pub(crate) top: Worktop<'a, K>,
    ghost free: { Free top },
}
