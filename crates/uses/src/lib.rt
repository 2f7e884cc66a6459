// Calls on a sheet as values, and what lists of them do.
#![tactic(auto)]

mod call;
mod division;
mod several;
mod single;

pub use call::{Answer, Call, Reply};
pub use division::{Divides, Division, NoDivision};
pub use several::run;
pub use single::perform;
