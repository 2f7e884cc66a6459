// What a call works on.
use areas::Areas;
use formats::Format;
use rings::Ring;

// The first eight areas are the places; the other four are for working, and hold anything while a call is made.
#[derive(Drop)]
pub struct Worktop<'a, K: Ring> {
    pub(crate) areas: Areas<'a, K>,
    pub(crate) format: Format,
}
