//! A page that shows what was found of a list of mutants and a suite of tests.
#![tactic(auto)]

mod escape;
mod found;
mod head;
mod laws;
mod lines_part;
mod listed;
mod matrix_part;
mod numbers;
mod survivors_part;
mod tests_part;
mod whole;

pub use escape::put_text;
pub use laws::escaped_text_has_no_markup;
pub use listed::Listed;
pub use whole::page;
