// What the drawer lays a film with: signed levels, records as five bytes, and the records of one net in their slots.
#![tactic(auto)]

pub mod levels;
pub mod records;
pub mod runs;
