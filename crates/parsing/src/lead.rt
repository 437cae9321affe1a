// The words that begin a statement, told by their bytes.
ghost use Rattle.std.specs.Prelude.{◌≡◌, ◌+◌, ◌≤◌, length, take, drop};
ghost use Rattle.parsing.specs.Leads.{lead_of, opens_none};

use crate::parser::Parser;
use lexing::same_bytes;

// What a statement begins with: one of the words, or a name.
#[derive(Clone, Copy, PartialEq, Eq, Debug)]
pub(crate) enum Lead {
    Var,
    Val,
    Simple(Simple),
    Forall,
    Choose,
    If,
    Loop,
    Name,
}

impl Lead {
    // Whether this word opens a level, as `loop` does alone, and none is left.
    #[tactic(auto, unfolding(crate::specs::Leads::opens_none))]
    pub(crate) fn opens_none(self, depth: usize) -> bool
        ensures { result ≡ opens_none self depth }
    {
        depth == 0 && matches!(self, Lead::Loop)
    }
}

// The words that begin a statement that holds no statement.
#[derive(Clone, Copy, PartialEq, Eq, Debug)]
pub(crate) enum Simple {
    Reinit,
    Exit,
    Return,
    Check,
    Assume,
    Reach,
    Assert,
    Probe,
}

// The words, in the order of `parse_stmt`.
static LEADS: [(&[u8], Lead); 14] = [
    (b"var", Lead::Var),
    (b"val", Lead::Val),
    (b"reinit", Lead::Simple(Simple::Reinit)),
    (b"exit", Lead::Simple(Simple::Exit)),
    (b"return", Lead::Simple(Simple::Return)),
    (b"check", Lead::Simple(Simple::Check)),
    (b"assume", Lead::Simple(Simple::Assume)),
    (b"reach", Lead::Simple(Simple::Reach)),
    (b"assert", Lead::Simple(Simple::Assert)),
    (b"probe", Lead::Simple(Simple::Probe)),
    (b"forall", Lead::Forall),
    (b"choose", Lead::Choose),
    (b"if", Lead::If),
    (b"loop", Lead::Loop),
];

// The lead of a word's bytes.
#[tactic(auto, unfolding(crate::specs::Leads::lead_of))]
fn lead_of(word: &[u8]) -> Lead
    ensures { result ≡ lead_of word.now }
{
    for &(known, lead) in &LEADS {
        if same_bytes(word, known) {
            return lead;
        }
    }
    Lead::Name
}

impl<'a> Parser<'a> {
    // The lead of the word of `len` bytes that stands here.
    pub(crate) fn lead_at(&self, len: usize) -> Lead
        requires { self.now.at + len ≤ length self.now.text.now }
        ensures { result ≡ lead_of (take len (drop self.now.at self.now.text.now)) }
    {
        let end = self.at + len;
        lead_of(&self.text[self.at..end])
    }
}
