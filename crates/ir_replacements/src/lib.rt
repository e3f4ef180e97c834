//! What an instruction item is in the place of another instruction of a module: an instruction of
//! the code, or one that can't stand there.
#![tactic(auto)]

mod breaks;
mod checker;
mod labels;
mod places;
mod replace;
mod shapes;

pub use breaks::{Around, breaks_rule};
pub use checker::Checker;
pub use labels::{goes_within, labels_of};
pub use places::{Places, Spot, places_of};
pub use replace::{Prepared, replacement_in};
pub use shapes::differs;
