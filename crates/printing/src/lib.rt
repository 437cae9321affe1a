// The prints of B3.

#![tactic(auto)]

mod by_settings;
mod entry;
mod error;

pub use by_settings::{print_expression_by, print_program_by};
pub use entry::{MOST_PRINT, print_expression, print_expression_lines, print_program};
pub use error::PrintByError;
pub use rendering::PrintError;
pub use settings::{ContentError, RecordError};
