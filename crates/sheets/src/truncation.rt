// Truncations.
ghost use Rattle.std.specs.Prelude.{◌≡◌, ◌+◌, take, nat_le};
ghost use Rattle.formats.specs.Drafts.{variables};
ghost use Rattle.formats.specs.Exponents.{degree as degree_of};
ghost use Rattle.formats.specs.Keys.{unpack};
ghost use Rattle.arithmetic.specs.Truncating.{low};

use formats::Format;

// It keeps the terms whose first `count` exponents add to at most `most`.
#[derive(Clone, Copy)]
pub(crate) struct Truncation {
    pub(crate) count: usize,
    pub(crate) most: u32,
}

impl Truncation {
    // Whether it keeps the term of a key.
    pub(crate) fn keeps(self, format: &Format, key: u64) -> bool
        ensures { result ≡ low self.count self.most (unpack (variables format.now) key) }
    {
        format.degree(key, self.count) <= self.most
    }

    // Whether it keeps the product of the term of a key and one whose first `count` exponents add to `degree`.
    pub(crate) fn keeps_product(self, format: &Format, key: u64, degree: u32) -> bool
        ensures { result ≡ nat_le (degree_of (take self.count (unpack (variables format.now) key)) + degree) self.most }
    {
        u64::from(format.degree(key, self.count)) + u64::from(degree) <= u64::from(self.most)
    }
}
