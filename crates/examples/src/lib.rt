// The contract's examples as theorems about the monitor. This crate has no code.
#![tactic(auto)]
