// StrongSynchronization and Synchronization: rows of two to four kinds whose events belong together.
#![tactic(auto)]

mod kinds;
pub mod strong_synchronization;
pub mod synchronization;
