//! Cuts the text of a module into tokens. What a token is, and where a text has a fault, is defined
//! in the crate `ir_tokens`; `lex` returns exactly that.
#![tactic(auto)]

mod class;
mod error;
mod front;
mod lexer;
mod parts;
#[cfg(test)]
mod tests;

pub use error::LexError;
pub use ir_tokens::{Token, TokenKind};
pub use lexer::lex;
