// Sporadic: rows of one kind whose events have hidden points.
#![tactic(auto)]

pub mod sporadic;
