//! Laws of lists of binary digits, lowest digit first: what Boolean functions of the digits make of the numbers
//! that they spell.
//!
//! Each law is a function with an empty body, whose contract is the law, and the definitions stand in
//! `specs/Digits/`. Literals spell, at each instant, the list of their truth values, so gates that compute these
//! functions compute with numbers. No gate is built here.

mod choices;
mod comparisons;
mod products;
mod quotients;
mod readings;
mod spelling;
mod steps;
mod sums;

pub use choices::{bounds, multiplexer};
pub use comparisons::{comparison, equality};
pub use products::{multiplication, product_range};
pub use quotients::{restoring_division, signed_division};
pub use readings::reading;
pub use spelling::{codes, extension, two_complement, unique_spelling};
pub use steps::{digit_by_digit, places};
pub use sums::{absolute_value, difference, full_adder, negation, ripple_carry};
