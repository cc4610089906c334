// Sheets as every part reads them: unpacked, judged, read back into a row, and compared with a row.
#![tactic(auto)]

pub mod agreement;
pub mod inspect;
pub mod layout;
pub mod nodes;
pub mod reader;
