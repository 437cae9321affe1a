// Reading B3 expressions and programs.

#![tactic(auto)]

mod entry;
mod flat;
mod writer;

pub use entry::{read_expression, read_program};
pub use lexing::refusal::Refusal;
