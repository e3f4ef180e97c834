//! The text of a report: letters, score, work and splits.
#![tactic(auto)]

mod load;
mod names;
mod score;
mod splits;
mod text;
mod works;

pub use load::summary;
pub use names::name_of;
pub use score::{put_score, score_text};
pub use text::report;
pub use works::{total_of, work_of};
