// What every trial uses: what fails, the counts and their printing, and the patterns of lent buffers.
#![tactic(auto)]

pub mod count;
pub mod failure;
pub mod patterns;
pub mod source;
pub mod tally;
