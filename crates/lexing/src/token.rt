// Words and signs, with the blanks after them.
ghost use Rattle.std.specs.Prelude.{◌≡◌, ◌-◌, ◌+◌, ◌*◌};
ghost use Rattle.lexing.specs.Tokens as tokens;
ghost use Rattle.lexing.specs.CodeAnswers.{answer_of, number_of};

use crate::blank::blanks;
use crate::bytes::{
    can_start_identifier_char, custom_literal_char, identifier_char, is_digit, run_length,
    same_bytes, starts_with,
};
use crate::refusal::{Reason, Refusal};

// A token's value, and how many bytes it takes with the blanks after it.
#[derive(Clone, Copy, PartialEq, Eq, Debug)]
pub struct Token {
    pub value: u64,
    pub size: usize,
}

// What reading a token answers: `None` where it does not stand here.
pub type Lexed = Result<Option<Token>, Refusal>;

// A token with a value that takes `n` bytes, and the blanks after it.
#[inline(always)]
pub fn lexeme(text: &[u8], value: u64, n: usize) -> Lexed
    ensures { answer_of result ≡ tokens.lexeme value n text.now }
{
    if text.len() < n {
        return Ok(Some(Token { value, size: n }));
    }
    match blanks(&text[n..]) {
        Ok(k) => Ok(Some(Token { value, size: n + k })),
        Err(open) => Err(Refusal::from(open.moved(n))),
    }
}

// How many bytes the identifier at the start has, 0 where there is none.
// Kept: 0 is the length that specs and `keyword` read with; parsing's `word_ahead` has it as an Option.
pub fn identifier_length(text: &[u8]) -> usize
    ensures { result ≡ tokens.identifier_length text.now }
{
    let [first, rest @ ..] = text else {
        return 0;
    };
    if can_start_identifier_char(*first) {
        return 1 + run_length(rest, identifier_char);
    }
    0
}

#[tactic(auto, unfolding(crate::specs::Tokens::parse_id))]
pub fn parse_id(text: &[u8]) -> Lexed
    ensures { answer_of result ≡ tokens.parse_id text.now }
{
    let size = identifier_length(text);
    if size == 0 {
        return Ok(None);
    }
    lexeme(text, size as u64, size)
}

pub fn parse_custom_literal(text: &[u8]) -> Lexed
    ensures { answer_of result ≡ tokens.parse_custom_literal text.now }
{
    let n = run_length(text, custom_literal_char);
    if n == 0 {
        return Ok(None);
    }
    Ok(Some(Token {
        value: n as u64,
        size: n,
    }))
}

// `T(word)`.
#[tactic(auto, using(crate::proofs::Returns::identifier_taken), unfolding(crate::specs::Tokens::keyword))]
pub fn keyword(text: &[u8], word: &[u8]) -> Lexed
    ensures { answer_of result ≡ tokens.keyword word.now text.now }
{
    let n = identifier_length(text);
    if same_bytes(&text[..n], word) {
        return lexeme(text, 0, n);
    }
    Ok(None)
}

#[tactic(auto, unfolding(crate::specs::Tokens::sign))]
#[inline(always)]
pub fn sym(text: &[u8], s: &[u8]) -> Lexed
    ensures { answer_of result ≡ tokens.sign s.now text.now }
{
    if starts_with(text, s) {
        return lexeme(text, 0, s.len());
    }
    Ok(None)
}

// `SymNotPrefix(s, [longer])`.
#[tactic(auto, unfolding(crate::specs::Tokens::sign_not_prefix))]
#[inline(always)]
pub fn sym_not_prefix(text: &[u8], s: &[u8], longer: &[u8]) -> Lexed
    ensures { answer_of result ≡ tokens.sign_not_prefix s.now longer.now text.now }
{
    if starts_with(text, longer) {
        return Ok(None);
    }
    sym(text, s)
}

// `value` with one more digit, if it is no larger than the largest natural.
pub(crate) fn with_digit(value: u64, digit: u8) -> Option<u64>
    ensures { result ≡ number_of (value * 10 + (digit - 48)) }
{
    let tens = value.checked_mul(10)?;
    tens.checked_add(u64::from(digit.saturating_sub(b'0')))
}

pub(crate) fn decimal(s: &[u8]) -> Option<u64>
    ensures { result ≡ number_of (tokens.decimal 0 s.now) }
{
    let mut value = 0;
    for digit in s {
        value = with_digit(value, *digit)?;
    }
    Some(value)
}

pub fn natural(text: &[u8]) -> Lexed
    ensures { answer_of result ≡ tokens.natural text.now }
{
    let n = run_length(text, is_digit);
    if n == 0 {
        return Ok(None);
    }
    match decimal(&text[..n]) {
        Some(value) => lexeme(text, value, n),
        None => Err(Refusal::new(Reason::LargeNatural, 0)),
    }
}
