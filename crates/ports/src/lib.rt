//! Pure functions of the outside that a module may call: the trait that they meet, four functions of the C library, and a table.
#![tactic(auto)]

mod known;
mod list;
mod port;
mod table;
#[cfg(test)]
mod tests;

pub use known::{
    Abs, AbsOf, Function, IsDigit, IsDigitOf, IsSpace, IsSpaceOf, Known, Labs, LabsOf,
};
pub use list::ask_port;
pub use port::Port;
pub use table::TablePort;
