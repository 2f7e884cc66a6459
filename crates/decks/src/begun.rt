// A number under way.
ghost use Rattle.std.specs.Prelude.{◌^◌, ◌<◌, ◌≤◌};

// Its first byte, whether a minus leads it, how many digits it has, and what they make.
// The sign stands beside the size, since a minus comes before its digits, and a signed 0 cannot hold it.
#[derive(Clone, Copy)]
pub(crate) struct Begun {
    pub(crate) first: usize,
    pub(crate) negative: bool,
    pub(crate) digits: u8,
    pub(crate) size: u64,
    ghost few: { digits ≤ 18 },
    ghost small: { size < 10 ^ digits },
}
