// The words and the numbers of the console's language.
#![tactic(auto)]

mod number;
mod words;

pub use number::{NumberFault, Radix, parse_number};
pub use words::Words;
