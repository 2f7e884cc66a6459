// Formats: which variables a polynomial has, how wide their exponents are, and how exponents are packed into a key.
#![tactic(auto)]

mod asking;
mod bounds;
mod degrees;
mod differences;
mod draft;
mod drafting;
mod exponents;
mod field;
mod fields;
mod format;
mod packing;
mod variable;
mod variables;

pub use draft::Draft;
pub use format::Format;
pub use variable::Variable;
