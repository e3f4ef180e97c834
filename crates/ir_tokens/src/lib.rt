//! The definition of tokens: which bytes spell a token, how a text is cut into tokens, separators
//! and comments, where it has a fault, and which value a name has. The lexer and the printer are
//! both proved against these definitions.
#![tactic(auto)]

mod laws;
mod number;
mod token;

pub use laws::{decided_numbers, one_cut, one_value, some_cut, spelled_slices, tokens_rise};
pub use number::{is_digits, small_number};
pub use token::{Token, TokenKind};
