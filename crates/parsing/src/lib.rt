// The reading rules of B3: the tree of a whole text, built in an arena.

#![tactic(auto)]

mod arena;
mod decl;
mod entry;
mod expr;
mod lead;
mod leaf;
mod parser;
mod program;
mod sign;
mod simple;
mod stmt;

pub use arena::Node;
pub use entry::{Whole, parse};
