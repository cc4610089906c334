// What is asked of one sheet: of an accepted row's, or of any.
#![tactic(auto)]

pub mod agreement;
pub mod sheets;
