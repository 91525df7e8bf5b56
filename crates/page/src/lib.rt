// The page: its format, and the check of one.
#![tactic(auto)]

mod counts;
mod field;
pub mod layout;
pub mod letters;
mod line;
mod page;

pub use page::check;
