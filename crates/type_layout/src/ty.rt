//! The types of values in memory.

use am_base::Width;
use sqlite_items::{Boxed, Items};

/// The type of a value in memory. LLVM Language Reference, "Type System".
#[derive(Drop)]
pub enum Ty {
    Int(Width),
    Ptr,
    /// How many elements there are, and their type.
    Array(u64, Boxed<Ty>),
    /// The types of the fields, in order.
    Struct(Items<Ty>),
}
