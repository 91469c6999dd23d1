// The promise of the exported calls for every sequence of calls. This crate has no code.
#![tactic(auto)]
