// What is asked of one row under one pair of streets.
#![tactic(auto)]

pub mod trial;
