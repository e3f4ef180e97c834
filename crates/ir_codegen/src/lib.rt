//! The functions of a module's code: their parameters, registers and blocks, from what one pass
//! over their items has found.
#![tactic(auto)]

mod functions;

pub use functions::{blocks, function_code, param_types, register_types};
