// Polynomials over the field of two elements as codes (document 01): bit j of a code is the coefficient of x^j.
#![tactic(auto)]

mod arithmetic;
mod limits;

pub use arithmetic::{Divided, check, check_pair, degree_of, divide, product, scaled};
pub use limits::Degree;
