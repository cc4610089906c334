// Trials of rows and sheets by lot.
#![tactic(auto)]

pub mod rows;
pub mod sheets;
