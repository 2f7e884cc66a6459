// Where the work stands on a card.
use crate::begun::Begun;
use crate::number::Number;

// Between numbers, after the minus at a byte, or in a number.
#[derive(Clone, Copy)]
pub(crate) enum Mode {
    Between,
    Sign(usize),
    Within(Begun),
}

// The columns worked, the mode, whether a number stands since the last comma or the card's start, and the last comma's byte.
// `some` is no part of `last`: as in the definition of texts, the byte of a comma stays after the numbers that follow it.
#[derive(Clone, Copy)]
pub struct Card {
    pub(crate) columns: u8,
    pub(crate) mode: Mode,
    pub(crate) some: bool,
    pub(crate) last: Option<usize>,
}

// What a byte leaves: the card, and a number if one has ended.
#[derive(Clone, Copy)]
pub struct Step {
    pub card: Card,
    pub number: Option<Number>,
}
