// A second router, written from documents 01 and 02 alone: what ours is tested against. It uses nothing of ours, so what both need is written a second time here.
#![tactic(auto)]

pub mod depth;
pub mod layers;
pub mod nets;
pub mod orders;
pub mod passage;
pub mod placing;
pub mod streets;
