// Rows and sheets by lot, for the trials.
#![tactic(auto)]

pub mod generator;
pub mod rows;
pub mod sheets;
