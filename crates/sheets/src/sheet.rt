// The sheet itself.
use crate::desk::Desk;
use rings::Ring;

// At rest its working areas are empty, so that every lent row that is no row of a place is blank. It is at rest when it was opened, and each call leaves at rest what was at rest; between `begin` and `store` or `abandon` it need not be.
#[derive(Drop)]
pub struct Sheet<'a, K: Ring> {
    pub desk: Desk<'a, K>,
}
