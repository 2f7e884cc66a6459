// The number of a place.
ghost use Rattle.std.specs.Prelude.{◌<◌};

use refusals::Refusal;

// The number of one of the eight places: that of its area.
#[derive(Clone, Copy)]
pub(crate) struct Place {
    pub(crate) area: usize,
    ghost placed: { area < 8 },
}

impl TryFrom<usize> for Place {
    ghost use Rattle.sheets.specs.Places.{Placed};

    type Error = Refusal;

    ghost try_from_gives = { Placed };

    fn try_from(area: usize) -> Result<Self, Refusal> {
        if area > 7 {
            return Err(Refusal::Place);
        }
        Ok(Place { area })
    }
}
