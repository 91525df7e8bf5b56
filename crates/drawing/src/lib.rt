// The drawing: which units some workable plant could use.
#![tactic(auto)]

mod composition;
mod flags;
mod lists;
mod maximal;
mod network;
mod picture;
mod reduction;
mod takedown;

pub use maximal::draw;
