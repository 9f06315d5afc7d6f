//! Splits a text into tokens, and tells the line and column of a place.
#![tactic(auto)]

mod comments;
mod fault;
mod front;
mod laws;
mod lexer;
mod marks;
mod names;
mod numbers;
mod places;
#[cfg(test)]
mod tests;
mod token;
mod word;
mod words;

pub use fault::LexFault;
pub use laws::{one_first_fault, one_split, split_or_fault, tokens_stand_in_order};
pub use lexer::tokens;
pub use names::{is_plain_name, name_bytes};
pub use places::{LineColumn, place, place_from};
pub use token::{Mark, Reserved, Token, TokenKind};
pub use word::Word;
