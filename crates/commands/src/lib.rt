//! The commands. Each has a plan, and a function that carries it out.
#![tactic(auto)]

mod alone;
mod built_in;
mod check;
mod groups;
mod laws;
mod load;
mod make;
mod number;
mod page_files;
mod run;
mod wanted;

pub use alone::alone_found;
pub use built_in::load_found;
pub use check::check_found;
pub use groups::groups_found;
pub use laws::{
    groups_are_classes, load_has_no_read_fault, named_plans, one_grouping, one_report, one_run,
    sharp_plans,
};
pub use make::make_found;
pub use number::number_found;
pub use page_files::page_found;
pub use run::run_found;
pub use wanted::{Point, Wanted};
