// ExecutionTime: rows of four kinds, start, stop, preempt and resume.
#![tactic(auto)]

pub mod execution_time;
