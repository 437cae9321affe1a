// Byte classes, runs of bytes and comparison with constant byte strings.
ghost use Rattle.std.specs.Prelude.{◌≡◌, ℕ, Bool};
ghost use Rattle.lexing.specs.Bytes.{is_space, is_digit, can_start_identifier_char, identifier_char, custom_literal_char, not_newline, run, starts_with, same_bytes};

#[tactic(auto, using(crate::proofs::Lists::any_is), unfolding(crate::specs::Bytes::is_space))]
pub(crate) fn is_space(b: u8) -> bool
    ensures { result ≡ is_space b }
{
    b" \t\r\n".contains(&b)
}

#[tactic(auto, unfolding(crate::specs::Bytes::is_digit))]
pub(crate) fn is_digit(b: u8) -> bool
    ensures { result ≡ is_digit b }
{
    matches!(b, b'0'..=b'9')
}

#[tactic(auto, unfolding(crate::specs::Bytes::can_start_identifier_char))]
pub(crate) fn can_start_identifier_char(b: u8) -> bool
    ensures { result ≡ can_start_identifier_char b }
{
    matches!(b, b'a'..=b'z') || matches!(b, b'A'..=b'Z') || b == b'%'
}

#[tactic(auto, using(crate::proofs::Lists::any_is), unfolding(crate::specs::Bytes::identifier_char))]
pub(crate) fn identifier_char(b: u8) -> bool
    ensures { result ≡ identifier_char b }
{
    can_start_identifier_char(b) || is_digit(b) || b"_$.".contains(&b)
}

#[tactic(auto, using(crate::proofs::Lists::any_is), unfolding(crate::specs::Bytes::custom_literal_char))]
pub(crate) fn custom_literal_char(b: u8) -> bool
    ensures { result ≡ custom_literal_char b }
{
    identifier_char(b) || b"+-*/@#!^".contains(&b)
}

#[tactic(auto, unfolding(crate::specs::Bytes::not_newline))]
pub(crate) fn not_newline(b: u8) -> bool
    ensures { result ≡ not_newline b }
{
    b != b'\n'
}

// How many bytes from the start on belong to the class.
pub(crate) fn run_length<F: Fn(u8) -> bool>(s: &[u8], class: F) -> usize
    requires { F.IsAlwaysCallable class }
    ensures { (p : ℕ → Bool) → ((b : ℕ) (r : Bool) → F.post class b r → r ≡ p b) → result ≡ run p s.now }
{
    s.iter().take_while(|b| class(**b)).count()
}

// Whether `w` stands at the start of `text`.
// Kept: the library's method under the definition of specs, which reads the bytes one by one; each token's rule is stated with it.
#[tactic(auto, using(crate::proofs::Lists::starts_pointwise))]
#[inline(always)]
pub(crate) fn starts_with(text: &[u8], w: &[u8]) -> bool
    ensures { result ≡ starts_with w.now text.now }
{
    text.starts_with(w)
}

// Whether `a` and `b` are the same bytes.
// Kept: `==` under the definition of specs, which reads the bytes one by one; each keyword's rule is stated with it.
#[tactic(auto, using(crate::proofs::Lists::same_pointwise))]
pub fn same_bytes(a: &[u8], b: &[u8]) -> bool
    ensures { result ≡ same_bytes a.now b.now }
{
    a == b
}
