//! The code of a module with names replaced by numbers, the replacements of the mutants, and the
//! cases that a test suite runs.
#![tactic(auto)]

mod case;
mod choices;
mod code;
mod instr;
mod replacements;
mod sign;
mod variants;

pub use case::Case;
pub use code::{Block, Code, Func, Place, TyScalar};
pub use instr::{Callee, Instr, Operand};
pub use sign::PortSign;
pub use type_layout::{Ty, align_of, offset, size_of};
pub use variants::Variants;
