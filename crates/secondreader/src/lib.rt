// The second router's reading of a sheet, its first fault or the row that it gives back, and whether a film shows its wires, written from documents 01 and 02 alone.
// It uses nothing of ours, so what both need is written a second time here.
#![tactic(auto)]

pub mod judge;
pub mod picture;
#[cfg(test)]
mod specimen;
