// The trait that the kernel's arithmetic is written over.
ghost use Rattle.std.specs.Prelude.{◌≡◌, Bool, true, Ok};
ghost use Rattle.rings.specs.Members.{RingLaws, NoZeroDivisors, copies};
ghost use Rattle.rings.specs.Kinds.{Kind, ValueLaws, FigureLaws};

use refusals::Refusal;

pub trait Ring: Copy {
    // the ring of members, which of them fit, and the values that stand for them
    ghost kind: { Kind Self };

    // whether nonzero members have a nonzero product
    ghost whole: { Bool };

    fn zero() -> Self
        ensures { result ≡ kind.zero_value };

    fn one() -> Self
        ensures { result ≡ kind.one_value };

    fn is_zero(self) -> bool
        ensures { result ≡ kind.ops.same (kind.meaning self) kind.ops.zero };

    fn equals(self, other: Self) -> bool
        ensures { result ≡ kind.ops.same (kind.meaning self) (kind.meaning other) };

    fn plus(self, other: Self) -> Result<Self, Refusal>
        ensures { result ≡ kind.value (kind.ops.plus (kind.meaning self) (kind.meaning other)) };

    fn times(self, other: Self) -> Result<Self, Refusal>
        ensures { result ≡ kind.value (kind.ops.times (kind.meaning self) (kind.meaning other)) };

    fn negative(self) -> Self
        ensures { Ok result ≡ kind.value (kind.ops.negative (kind.meaning self)) };

    // The sum of n copies.
    fn multiple(self, n: u16) -> Result<Self, Refusal>
        ensures { result ≡ kind.value (copies kind.ops n (kind.meaning self)) };

    // How many figures write a value: one or two. A function of the kind, since a card's reader wants the count before it
    // has a value.
    fn figure_count() -> u8
        ensures { result ≡ kind.count };

    // The figures that write the value; the second is 0 where the kind has one. A pair whatever the count, since rows of
    // every kind are shown, and read back by `from_figures`, as two numbers.
    fn figures(self) -> (i64, i64)
        ensures { result ≡ (kind.first self, kind.second self) };

    // The value that figures make.
    fn from_figures(first: i64, second: i64) -> Result<Self, Refusal>
        ensures { result ≡ kind.make first second };

    ghost ring: { RingLaws kind.ops };

    ghost values: { ValueLaws kind };

    ghost writing: { FigureLaws kind };

    ghost wholeness: { whole ≡ true → NoZeroDivisors kind.ops };
}
