// The bench profile: whether a program's table keeps the rules by which a flow is judged before it is released, or where the first of them is broken.

#![tactic(auto)]

mod answer;
mod entry;
mod labels;
mod outline;
mod rules;
mod verdict;

pub use answer::{Breach, JudgeError, Rule, Verdict};
pub use entry::judge_program;
