//! The trusted edge of a program: a shelf over the system's files, and a sink over standard output.
#![tactic(auto)]

mod adapters;
#[cfg(test)]
mod tests;

pub use adapters::{FileShelf, StdoutSink, read_once};
