// What is asked of a sheet's film: whether the drawer refuses it as it has to, or draws the wires of the sheet.
#![tactic(auto)]

pub mod films;
