// A text that is read, and the arena that its tree is built in: tokens and nodes.
ghost use Rattle.std.specs.Prelude.{◌≡◌, ◌+◌, ◌*◌, ◌≤◌, ◌<◌, ◌^◌, true, length, take, drop, get_or};
ghost use Rattle.lexing.specs.Bytes.{same_bytes};
ghost use Rattle.lexing.specs.declared.refusal.Reason.TheVariants.{UnusableToken, LevelTooDeep};
ghost use Rattle.tree.specs.Limits.{most_text};
ghost use Rattle.tree.specs.Tags.{no_more};
ghost use Rattle.grammar.specs.Steps.{parse_name, parse_literal_text, parse_nat};
ghost use Rattle.grammar.specs.Statements.{mark as mark_rule};
ghost use Rattle.parsing.specs.Arena.{most_arena, outside};
ghost use Rattle.parsing.specs.TooDeep.{too_deep_if};
ghost use Rattle.parsing.specs.declared.arena.Node.TheVariants.{Empty, One, Pair};

use crate::arena::{EMPTY, END, Node};
use crate::sign::Sign;
use lexing::Lexed;
use lexing::refusal::{Reason, Refusal};
use tree::word::{ExprTag, Operator};

// The text and the place that was come to, the arena and the number of its nodes. There is room for two nodes for each byte that is left, and the
// first two nodes stand.
// Kept: `depth`, the levels that may be opened, is an argument: as a field each level would lower it and put it back, and each contract say so.
// Kept: `Spare N` in a contract: N is the rule's own and falls as it makes nodes; what all rules share are the ghost fields.
// Kept: a kind, a level or a name beside `depth`: the depth falls from level to level, and they stay.
#[derive(Drop)]
pub(crate) struct Parser<'a> {
    pub(crate) text: &'a [u8],
    pub(crate) arena: &'a mut [Node],
    pub(crate) at: usize,
    pub(crate) top: usize,
    ghost short: { length text.now ≤ most_text },
    ghost small: { length arena.now ≤ most_arena },
    ghost inside: { at ≤ length text.now },
    ghost above: { 2 ≤ top },
    ghost room: { top + 2 * length text.now ≤ length arena.now + 2 * at },
    ghost empty_run: { get_or arena.now 0 outside ≡ Empty },
    ghost end_run: { get_or arena.now 1 outside ≡ One no_more },
}

// Where a name stands in the text, and its length.
#[derive(Clone, Copy, PartialEq, Eq, Debug)]
pub(crate) struct Name {
    pub(crate) start: u32,
    pub(crate) len: u32,
}

// Nodes.
impl<'a> Parser<'a> {
    ghost use Rattle.parsing.specs.Contract.{Spare, Pushed, Four, Chosen, Closable, Closes};
    ghost use Rattle.parsing.specs.Code.{Combined, Foldable, Folded};

    #[inline(always)]
    pub(crate) fn push(&mut self, node: Node) -> u32
        requires { Spare self.old 1 }
        ensures { Pushed node self.old self.new result }
    {
        let n = self.top;
        self.arena[n] = node;
        self.top = n + 1;
        n as u32
    }

    // Two runs, one after the other.
    pub(crate) fn pair(&mut self, a: u32, b: u32) -> u32
        requires { Spare self.old 1 }
        ensures { Pushed (Pair a b) self.old self.new result }
    {
        self.push(Node::Pair(a, b))
    }

    // Four.
    pub(crate) fn four(&mut self, a: u32, b: u32, c: u32, d: u32) -> u32
        requires { Spare self.old 3 }
        ensures { Four a b c d self.old self.new result }
    {
        let first = self.pair(a, b);
        let second = self.pair(c, d);
        self.pair(first, second)
    }

    // IfThenElse over three operands.
    pub(crate) fn choice(&mut self, guard: u32, thn: u32, els: u32) -> u32
        requires { Spare self.old 5 }
        ensures { Chosen guard thn els self.old self.new result }
    {
        let head = self.push(Node::Two(ExprTag::OperatorExpr as u32, Operator::IfThenElse as u32));
        let first = self.push(Node::Item(head, guard));
        let second = self.push(Node::Item(first, thn));
        let third = self.push(Node::Item(second, els));
        self.push(Node::Closed(third))
    }

    // A sequence with its end: `END` where it has no items.
    pub(crate) fn close(&mut self, list: u32) -> u32
        requires { Closable list self.old }
        ensures { Closes list self.old self.new result }
    {
        if list == EMPTY {
            return END;
        }
        self.push(Node::Closed(list))
    }

    // An operator over two operands, which may swap.
    pub(crate) fn combine(&mut self, sign: Sign, a: u32, b: u32) -> u32
        requires { Spare self.old 1 }
        ensures { Combined sign a b self.old self.new result }
    {
        match sign {
            Sign::Straight(op) => self.push(Node::Binary(op, a, b)),
            Sign::Swapped(op) => self.push(Node::Binary(op, b, a)),
        }
    }

    // The operators that `first` leads back through, over the operand `last`. While they wait, each has the one before it in the place of its last
    // operand; before the first is node 0.
    pub(crate) fn fold(&mut self, first: u32, last: u32) -> u32
        requires { Foldable first last self.old }
        ensures { Folded first last self.old self.new result }
    {
        let mut e = last;
        let mut link = first;
        // Kept: the next link stands in the node that this one leads to, so there is no range and no slice to go over, and an iterator of links
        // (`iter::successors`) would hold the arena that each turn pushes to.
        loop {
            match self.arena[link as usize] {
                Node::Unary(op, before) => {
                    e = self.push(Node::Unary(op, e));
                    link = before;
                }
                Node::Binary(op, a, before) => {
                    e = self.push(Node::Binary(op, a, e));
                    link = before;
                }
                _ => return e,
            }
        }
    }
}

// Tokens, with the blanks after them.
impl<'a> Parser<'a> {
    ghost use Rattle.parsing.specs.Contract.{word, sign, sign_but, Lies, Passed, Stands, Takes_if, Names_if, Spelt, Ahead, word_here, Passes_word};
    ghost use Rattle.parsing.specs.Signs.{Operates, may_begin};

    // Passes a token that was read here.
    fn pass(&mut self, lexed: Lexed) -> Result<Option<u64>, Refusal>
        requires { Lies self.old lexed }
        ensures { Passed lexed self.old self.new result }
    {
        match lexed {
            Ok(Some(token)) => {
                self.at += token.size;
                Ok(Some(token.value))
            }
            Ok(None) => Ok(None),
            // Kept: a public `moved` of lexing would have to ask that the sum fits.
            Err(refusal) => Err(Refusal::new(refusal.reason, self.at + refusal.place)),
        }
    }

    // Passes a token whose value does not matter; whether it stands here.
    fn stands(&mut self, lexed: Lexed) -> Result<bool, Refusal>
        requires { Lies self.old lexed }
        ensures { Stands lexed self.old self.new result }
    {
        Ok(self.pass(lexed)?.is_some())
    }

    // The byte `i` places on, 0 past the end.
    pub(crate) fn peek(&self, i: usize) -> u8
        requires { self.now.at + i < 2 ^ 63 }
        ensures { result ≡ get_or self.now.text.now (self.now.at + i) 0 }
    {
        tree::item_or(self.text, self.at + i, 0)
    }

    // Whether these bytes may stand here, by a look at the first of them.
    #[inline(always)]
    fn may_stand(&self, bytes: &[u8]) -> bool
        ensures { result ≡ may_begin bytes.now (get_or self.now.text.now self.now.at 0) }
    {
        match bytes {
            [first, ..] => *first == self.peek(0),
            [] => true,
        }
    }

    // How many bytes the word or name that stands here has, where one does.
    pub(crate) fn word_ahead(&self) -> Option<usize>
        ensures { Ahead self.now result }
    {
        let len = lexing::identifier_length(&self.text[self.at..]);
        if len == 0 { None } else { Some(len) }
    }

    // Whether the word of `len` bytes that stands here is these.
    #[inline(always)]
    pub(crate) fn word_is(&self, len: usize, bytes: &[u8]) -> bool
        requires { self.now.at + len ≤ length self.now.text.now }
        ensures { result ≡ same_bytes (take len (drop self.now.at self.now.text.now)) bytes.now }
    {
        let end = self.at + len;
        lexing::same_bytes(&self.text[self.at..end], bytes)
    }

    // Whether the word that stands here is these bytes.
    pub(crate) fn word_here(&self, bytes: &[u8]) -> bool
        requires { 1 ≤ length bytes.now }
        ensures { result ≡ word_here self.now bytes.now }
    {
        match self.word_ahead() {
            Some(len) => self.word_is(len, bytes),
            None => false,
        }
    }

    // Passes the word or name of `len` bytes that stands here.
    #[inline(always)]
    pub(crate) fn pass_word(&mut self, len: usize) -> Result<Name, Refusal>
        requires { Spelt self.old len }
        ensures { Passes_word len self.old self.new result }
    {
        let start = self.at as u32;
        let lexed = lexing::lexeme(&self.text[self.at..], 0, len);
        self.stands(lexed)?;
        Ok(Name {
            start,
            len: len as u32,
        })
    }

    // `T(bytes)`, where the word that stands here has `len` bytes.
    #[inline(always)]
    pub(crate) fn keyword_of(&mut self, len: usize, bytes: &[u8]) -> Result<bool, Refusal>
        requires { Spelt self.old len }
        ensures { Takes_if (word bytes.now) (length bytes.now) self.old self.new result }
    {
        if !self.word_is(len, bytes) {
            return Ok(false);
        }
        self.pass_keyword(len, bytes)
    }

    // Passes the word of `len` bytes that stands here, which is these.
    fn pass_keyword(&mut self, len: usize, bytes: &[u8]) -> Result<bool, Refusal>
        requires spelt { Spelt self.old len }
        requires same { same_bytes (take len (drop self.old.at self.old.text.now)) bytes.now ≡ true }
        ensures { Takes_if (word bytes.now) (length bytes.now) self.old self.new result }
    {
        let lexed = lexing::lexeme(&self.text[self.at..], 0, len);
        // Kept: `?` and `Ok`, since an answer that is handed on whole is copied with its gaps.
        Ok(self.stands(lexed)?)
    }

    // `T(bytes)`. A look at the first byte tells most often that it does not stand here.
    #[inline(always)]
    pub(crate) fn keyword(&mut self, bytes: &[u8]) -> Result<bool, Refusal>
        requires { 1 ≤ length bytes.now }
        ensures { Takes_if (word bytes.now) (length bytes.now) self.old self.new result }
    {
        if self.may_stand(bytes) {
            return self.keyword_here(bytes);
        }
        Ok(false)
    }

    // `T(bytes)`, word by word.
    fn keyword_here(&mut self, bytes: &[u8]) -> Result<bool, Refusal>
        requires { 1 ≤ length bytes.now }
        ensures { Takes_if (word bytes.now) (length bytes.now) self.old self.new result }
    {
        match self.word_ahead() {
            Some(len) => self.keyword_of(len, bytes),
            None => Ok(false),
        }
    }

    // `Sym(bytes)`. A look at the first byte tells most often that it does not stand here.
    #[inline(always)]
    pub(crate) fn sym(&mut self, bytes: &[u8]) -> Result<bool, Refusal>
        ensures { Takes_if (sign bytes.now) (length bytes.now) self.old self.new result }
    {
        if self.may_stand(bytes) {
            return self.sym_here(bytes);
        }
        Ok(false)
    }

    // `Sym(bytes)`, byte by byte.
    #[inline(always)]
    fn sym_here(&mut self, bytes: &[u8]) -> Result<bool, Refusal>
        ensures { Takes_if (sign bytes.now) (length bytes.now) self.old self.new result }
    {
        let lexed = lexing::sym(&self.text[self.at..], bytes);
        self.stands(lexed)
    }

    // `SymNotPrefix(bytes, [longer])`. A look at the first byte tells most often that it does not stand here.
    #[inline(always)]
    pub(crate) fn sym_not_prefix(&mut self, bytes: &[u8], longer: &[u8]) -> Result<bool, Refusal>
        ensures { Takes_if (sign_but bytes.now longer.now) (length bytes.now) self.old self.new result }
    {
        if self.may_stand(bytes) {
            return self.sym_not_prefix_here(bytes, longer);
        }
        Ok(false)
    }

    // `SymNotPrefix(bytes, [longer])`, byte by byte.
    #[inline(always)]
    fn sym_not_prefix_here(&mut self, bytes: &[u8], longer: &[u8]) -> Result<bool, Refusal>
        ensures { Takes_if (sign_but bytes.now longer.now) (length bytes.now) self.old self.new result }
    {
        let lexed = lexing::sym_not_prefix(&self.text[self.at..], bytes, longer);
        self.stands(lexed)
    }

    // `:=`, `:` or `(`.
    #[inline(always)]
    #[tactic(auto, using(crate::proofs::Laws::failing), unfolding(grammar::specs::Statements::mark))]
    pub(crate) fn mark(&mut self) -> Result<bool, Refusal>
        ensures { Takes_if mark_rule 1 self.old self.new result }
    {
        if self.sym(b":=")? {
            return Ok(true);
        }
        if self.sym(b":")? {
            return Ok(true);
        }
        self.sym(b"(")
    }

    #[inline(always)]
    pub(crate) fn name(&mut self) -> Result<Option<Name>, Refusal>
        ensures { Names_if parse_name self.old self.new result }
    {
        match self.word_ahead() {
            Some(len) => Ok(Some(self.pass_word(len)?)),
            None => Ok(None),
        }
    }

    // The text of a custom literal.
    pub(crate) fn literal_text(&mut self) -> Result<Option<Name>, Refusal>
        ensures { Names_if parse_literal_text self.old self.new result }
    {
        let start = self.at as u32;
        let lexed = lexing::parse_custom_literal(&self.text[self.at..]);
        match self.pass(lexed)? {
            Some(len) => Ok(Some(Name {
                start,
                len: len as u32,
            })),
            None => Ok(None),
        }
    }

    // A natural.
    pub(crate) fn natural(&mut self) -> Result<Option<u64>, Refusal>
        ensures { Operates (λ v. v) parse_nat self.old self.new result }
    {
        let lexed = lexing::natural(&self.text[self.at..]);
        self.pass(lexed)
    }
}

// Tokens that must follow: refusal 2 where they don't.
// Kept: `need_x` is the library's `ok_or` at the place before, and proves without an answer. One `need` over a closure, as `self.need(|p| p.name())`,
// would save the line of that place, and want an answer at each use, from what the closure's calls give to what the rule gives.
impl<'a> Parser<'a> {
    ghost use Rattle.parsing.specs.Contract.{Takes, Names, needed, word, sign};

    #[inline]
    #[tactic(auto, using(crate::proofs::Laws::failing), unfolding(grammar::specs::Steps::after))]
    pub(crate) fn need_keyword(&mut self, bytes: &[u8]) -> Result<(), Refusal>
        requires { 1 ≤ length bytes.now }
        ensures { Takes (needed (word bytes.now)) (length bytes.now) self.old self.new result }
    {
        let place = self.at;
        if self.keyword(bytes)? {
            return Ok(());
        }
        Err(unusable(place))
    }

    #[inline(always)]
    #[tactic(auto, using(crate::proofs::Laws::failing), unfolding(grammar::specs::Steps::after))]
    pub(crate) fn need_sym(&mut self, bytes: &[u8]) -> Result<(), Refusal>
        ensures { Takes (needed (sign bytes.now)) (length bytes.now) self.old self.new result }
    {
        let place = self.at;
        if self.sym(bytes)? {
            return Ok(());
        }
        Err(unusable(place))
    }

    #[inline]
    #[tactic(auto, using(crate::proofs::Laws::failing), unfolding(grammar::specs::Steps::after))]
    pub(crate) fn need_name(&mut self) -> Result<Name, Refusal>
        ensures { Names (needed parse_name) self.old self.new result }
    {
        let place = self.at;
        self.name()?.ok_or(unusable(place))
    }

    #[inline]
    #[tactic(auto, using(crate::proofs::Laws::failing), unfolding(grammar::specs::Steps::after))]
    pub(crate) fn need_literal_text(&mut self) -> Result<Name, Refusal>
        ensures { Names (needed parse_literal_text) self.old self.new result }
    {
        let place = self.at;
        self.literal_text()?.ok_or(unusable(place))
    }
}

// Refusal 3 at a place.
// Kept: this and `unusable` are each one call, by the name of the refusal that many rules give.
pub(crate) fn too_deep(place: usize) -> Refusal
    ensures { result ≡ record { reason = LevelTooDeep; place = place } }
{
    Refusal::new(Reason::LevelTooDeep, place)
}

// Refusal 3 at a place if a token stands, though the blanks after it be refused.
pub(crate) fn too_deep_if(place: usize, stands: Result<bool, Refusal>) -> Result<(), Refusal>
    ensures { result ≡ too_deep_if place stands }
{
    if stands.unwrap_or(true) {
        return Err(too_deep(place));
    }
    Ok(())
}

// Refusal 2 at a place.
// Kept: as `too_deep`.
pub(crate) fn unusable(place: usize) -> Refusal
    ensures { result ≡ record { reason = UnusableToken; place = place } }
{
    Refusal::new(Reason::UnusableToken, place)
}
