//! Whether the operands of an instruction keep the rules on names, types and numbers.
#![tactic(auto)]

mod each;
mod kinds;
mod operand;
mod rules;
mod taken;

pub use operand::{OperandRule, Tables, operand_breaks_rule};
pub use rules::{literal_range, type_differs, unknown_name};
