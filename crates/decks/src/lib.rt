// Decks of cards, worked byte by byte into numbers, and number by number into terms.
#![tactic(auto)]

mod begun;
mod bytes;
mod card;
mod close;
mod coefficient;
mod comma;
mod digit;
mod digits;
mod ended;
mod ending;
mod fault;
mod gap;
mod minus;
mod number;
mod partial;
mod power;
mod step;
mod stray;
mod taking;
mod zero;

pub use bytes::at_byte;
pub use card::{Card, Step};
pub use ending::through;
pub use fault::Fault;
pub use number::Number;
pub use partial::{Got, Partial};
pub use taking::take;
