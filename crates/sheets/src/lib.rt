// The sheet: eight places for polynomials and four areas for working, in rows that the caller lends.
#![tactic(auto)]

mod add;
mod asking;
mod change;
mod constant;
mod copy;
mod desk;
mod differentiate;
mod divide;
mod equal;
mod finish;
mod gather;
mod leading;
mod multiply;
mod multiply_truncated;
mod negate;
mod open;
mod place;
mod product;
mod running;
mod settle;
mod sheet;
mod substitute;
mod subtract;
mod truncate;
mod truncation;
mod variable;
mod worktop;

pub use desk::Desk;
pub use sheet::Sheet;
