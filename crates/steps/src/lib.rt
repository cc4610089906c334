// One node on a set of orders: sets as words of ranks, and openings, touches, endings and blanks on them, forward and back.
//
// What a step is given (`ToSpread`, `ToPrune`) binds a stop, the lent bytes and a gap. The bytes change at each node, so that it is no invariant of any of the three, and
// the bytes go beside a gap's number (`word`).
#![tactic(auto)]

pub mod end;
pub mod net;
mod older;
pub mod open;
pub mod plan;
pub mod rank;
pub mod rest;
pub mod tables;
pub mod touch;
pub mod word;
