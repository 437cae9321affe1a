// Blanks and words of B3. Each function reads from the start of the text that it is given, a part that may begin anywhere in a larger one.

#![tactic(auto)]

mod blank;
mod bytes;
pub mod refusal;
mod token;

pub use blank::{Unclosed, blanks};
pub use bytes::same_bytes;
pub use token::{
    Lexed, Token, identifier_length, keyword, lexeme, natural, parse_custom_literal, parse_id, sym,
    sym_not_prefix,
};
