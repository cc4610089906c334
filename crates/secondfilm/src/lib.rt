// The second router's sheets and the wire rules on a film, written from documents 01 and 02 alone: what our sheets and films are tested against. It uses nothing of
// ours, so what both need is written a second time here.
#![tactic(auto)]

pub mod fields;
pub mod gaps;
pub mod order;
pub mod records;
pub mod sheets;
pub mod wires;
