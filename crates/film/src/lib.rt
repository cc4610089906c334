// The drawer: from a sheet to a film of wire records.
#![tactic(auto)]

pub mod drawer;
pub mod moves;
pub mod node;
pub mod nodes;
pub mod open_wires;
