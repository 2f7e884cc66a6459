// Twelve tables in rows that the caller lends, and the passes over them: sums, and sums with a multiple of a table.
#![tactic(auto)]

mod add;
mod asking;
mod blank;
mod clear;
mod combine;
mod copy;
mod merge;
mod open;
mod product;
mod push;
mod settle;
mod step;
mod twelve;

pub use twelve::Areas;
