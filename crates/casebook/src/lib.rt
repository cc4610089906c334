// Cases asked of router, reader, agreement test, drawer and listing. Each is a line of text; what was answered and written is printed, and tested against the line.
#![tactic(auto)]

mod agreement;
mod book;
mod listings;
pub mod pairs;
mod print;
mod routing;
pub mod sheets;
mod whole;

pub use book::{Asked, Casebook, Cases};
