// The passes of the router over sets of orders, forward and back, and the bytes that the sets stand in, which go beside a gap's number as in `steps`.
#![tactic(auto)]

pub mod pass;
pub mod reach;
pub mod set;
