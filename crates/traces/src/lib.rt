//! What it means to run the mutants of one test together: a machine's meanings, the traces of the mutants, the work of an analysis,
//! and the configurations of executions. There is no code here: specs/ has the definitions and proofs/ their laws.
#![tactic(auto)]
