//! The top call: what the words of a command ask for, carried out and written.
#![tactic(auto)]

mod call;
mod carried;
mod own_ports;
mod picking;
mod top;
mod view;
mod view_words;
mod view_written;
mod written;

pub use command_plan::Status;
pub use top::accmut;
pub use view::accmut_view;
pub use view_words::ViewCommand;
