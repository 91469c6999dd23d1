// Rows of coloured kinds: chains from stimuli to responses.
#![tactic(auto)]

pub mod age;
mod coloured;
pub mod input_synchronization;
mod least;
mod marked;
pub mod output_synchronization;
mod pairs;
pub mod reaction;
