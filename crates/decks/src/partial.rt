// A term under way, and what a number makes of it.
use rows::Row;

// The coefficient and its first byte; how many exponents there are so far, and their key by the first so many variables.
// It counts those, and does not hold the slice of the others: a term under way then borrows from no format.
#[derive(Clone, Copy)]
pub struct Powers<K> {
    pub(crate) coefficient: K,
    pub(crate) first: usize,
    pub(crate) count: usize,
    pub(crate) key: u64,
}

// No number yet, a first figure with its first byte, or a coefficient and exponents.
// Its first two cases are no `Option<Number>`: they are the cases of the definition of texts, by name.
#[derive(Clone, Copy)]
pub enum Partial<K> {
    None,
    Figure(i64, usize),
    Powers(Powers<K>),
}

// A term still under way, a whole one with its first byte, or the deck's end.
#[derive(Clone, Copy)]
pub enum Got<K> {
    More(Partial<K>),
    Whole(Row<K>, usize),
    Ends,
}
