//! What an analysis gives.

use am_lists::Items;
use member_sets::Members;

/// Mutants whose whole traces are equal, the state that they end in, and the length of their
/// traces.
#[derive(Debug, Drop)]
pub struct Class<S> {
    pub state: S,
    pub members: Members,
    pub length: u64,
}

/// A division of an execution: its step, and the least member of each part, rising.
#[derive(Debug, Drop, PartialEq, Eq)]
pub struct Split {
    pub step: u64,
    pub parts: Items<u32>,
}

/// What an analysis took. `steps` counts the distinct nonempty prefixes of the traces, `alone` the
/// changes of all traces, `tries` the variants that were tried, and `executions` the distinct
/// traces.
#[derive(Clone, Copy, Debug, PartialEq, Eq)]
pub struct Work {
    pub steps: u64,
    pub alone: u64,
    pub tries: u64,
    pub executions: u64,
}

/// What an analysis gives: the classes in order of least member, the splits in order of step, then
/// of first part, and the work.
#[derive(Debug, Drop)]
pub struct Analysis<S> {
    pub classes: Items<Class<S>>,
    pub splits: Items<Split>,
    pub work: Work,
}
