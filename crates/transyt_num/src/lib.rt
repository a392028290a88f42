//! Whole-number arithmetic that is wider than the rest, and numbers as text.
//!
//! A contract sees numbers as numbers and a text as its list of bytes. `specs/Root` has `root`, the square
//! root rounded down. `specs/Number` has `number_of`, what a word of digits reads as, and `IsShortest`, what
//! the text of a value is; that text is std's `decimal`. `reciprocal` and `divided_near` serve loops that divide
//! many numbers by one. The laws that callers cite are in `proofs/RootLaws`, `proofs/NumberLaws` and
//! `proofs/ReciprocalLaws`. Everything here is this project's own.
#![tactic(auto)]

mod dividing;
mod laws;
mod quotient;
mod reading;
mod square_root;
mod writing;

pub use dividing::{divided_near, reciprocal};
pub use laws::worked_numbers;
pub use quotient::mul_div;
pub use reading::read_number;
pub use square_root::isqrt;
pub use writing::put_number;
