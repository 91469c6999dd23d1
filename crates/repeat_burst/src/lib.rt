// Repeat, Burst and Arbitrary: rows of one kind that keep the times of their last events.
#![tactic(auto)]

pub mod arbitrary;
pub mod repeat;
