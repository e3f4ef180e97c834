//! The worked example of docs/EXAMPLE.md: its code and its cases as definitions, and in `proofs/`
//! the definitions of traces and of the machine, computed on them. It has no code.
#![tactic(auto)]
