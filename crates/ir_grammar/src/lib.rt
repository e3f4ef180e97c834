//! The grammar: how the tokens of a module's text make its items. The reader and the printer are
//! both proved against these definitions.
#![tactic(auto)]

mod laws;
mod starts;

pub use laws::{names_read, one_item, one_module, one_unread, some_reading};
pub use starts::{
    Bracket, FlagStart, ItemStart, OpStart, OperandStart, SkipStart, TailStart, TypeStart,
};
