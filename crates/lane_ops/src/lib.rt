//! Kernels over lanes: one operation on the words of two lists, by vectors of `std::simd` and a
//! plain loop for the lanes that are left.
#![tactic(auto)]

mod arithmetic;
mod binary;
mod bits;
mod blocks;
mod compare;
mod mask;
mod order;
mod page;
mod planes;
mod shifts;
mod single;
#[cfg(test)]
mod tests;
mod words;

pub use binary::binary_lanes;
pub use compare::compare_lanes;
pub use mask::equal_mask;
pub use page::page_differs;
pub use planes::{and_not_planes, and_planes};
