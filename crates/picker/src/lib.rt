//! Which of the live executions of an analysis takes the next turn.
#![tactic(auto)]

mod listed;
mod ordered;
mod picker;

pub use listed::Listed;
pub use ordered::{BreadthFirst, DepthFirst, SmallestFirst};
pub use picker::{Offer, Picker};

#[cfg(test)]
mod tests;
