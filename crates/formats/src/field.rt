// One field of a key.
ghost use Rattle.std.specs.Prelude.{◌≡◌, ◌<◌, ◌≤◌};
ghost use Rattle.formats.specs.Keys.{field};

// The field of an exponent: `width` bits above the lowest `shift` bits of a key.
#[derive(Clone, Copy)]
pub(crate) struct Field {
    pub(crate) shift: u32,
    pub(crate) width: u8,
    ghost low: { shift < 64 },
    ghost narrow: { width ≤ 16 },
}

impl Field {
    // The exponent in this field of a key.
    pub(crate) fn of(self, key: u64) -> u16
        ensures { result ≡ field self.shift self.width key }
    {
        let mask = (1u64 << self.width) - 1;
        ((key >> self.shift) & mask) as u16
    }
}
