// The Gaussian integers with parts of magnitude up to 1,073,741,823, as a coefficient kind of two figures. A domain.
#![tactic(auto)]

mod domain;
mod member;
mod product;
mod quotient;
mod ring;
mod value;

pub use value::Gaussian;
