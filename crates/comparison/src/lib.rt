// Comparison: a row that no event concerns. This crate has no code: the machine is that of no type.
#![tactic(auto)]
