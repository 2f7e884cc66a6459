// What a coefficient kind is: the ring that it stands for, which members fit, and how a value is held and written.
#![tactic(auto)]

mod domain;
mod figures;
mod ring;
mod values;

pub use domain::Domain;
pub use figures::{Figures, number_up_to};
pub use ring::Ring;
pub use values::tells_apart;
