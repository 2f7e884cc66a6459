// Decks of cards: a place's polynomial as text, a card for each row, and the place that a text gives.
#![tactic(auto)]

mod card;
mod deck;
mod exponents;
mod figures;
mod reading;
mod room;
mod sink;
mod terms;
mod writer;
mod writing;

pub use reading::{ReadFault, read};
pub use writing::write;
