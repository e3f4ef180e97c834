//! What a picker is offered in a whole command: the real tree of splits. It has no code of its own.
#![tactic(auto)]

#[cfg(test)]
mod tests;
