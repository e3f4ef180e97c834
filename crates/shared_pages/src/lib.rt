//! Memories of equal size whose pages are shared until they are written.
#![tactic(auto)]

mod law;
mod leaves;
mod naming;
mod opening;
mod pages;
mod pool;
mod rows;
mod store;
mod tables;
#[cfg(test)]
mod tests;

pub use law::{
    equal_memories_share, own_pages_alone, own_pages_stay, pages_determined, reserve_takes_few,
    writes_keep_pages,
};
pub use store::{MemId, PageStore};
