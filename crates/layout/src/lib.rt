// What the prints of B3 are: their definitions in specs/, and PrintUtil.dfy's types.

#![tactic(auto)]

mod format;
mod power;
mod settings;

pub use format::{ExprFormatOption, deeper};
pub use power::{BindingPower, Side, TieBreaker};
pub use settings::{Form, INDENT_AMOUNT, Settings};
