// Delay, StrongDelay and Order: rows of a source kind and a target kind.
#![tactic(auto)]

pub mod delay;
pub mod order;
pub mod strong_delay;
