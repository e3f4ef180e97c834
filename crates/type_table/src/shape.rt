//! One level of a type, and how much room a value of a type takes.

use am_base::Width;
use am_lists::Items;

/// One level of a type, with the numbers of its parts in a table of types.
#[derive(Debug, Drop, PartialEq, Eq, Hash)]
pub enum Shape {
    Int(Width),
    Ptr,
    /// How many elements there are, and the number of their type.
    Array(u64, usize),
    /// The numbers of the types of the fields, in order.
    Struct(Items<usize>),
}

/// How much room a value of a type takes.
#[derive(Drop)]
pub struct Extent {
    /// Its bytes.
    pub size: u64,
    /// Its alignment in bytes.
    pub align: u64,
    /// Where the fields of a struct begin, in bytes from its beginning; of another type none.
    pub offsets: Items<u64>,
}
