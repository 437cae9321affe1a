// The rules at a place of a table, by its words, kinds and ends.
ghost use Rattle.std.specs.Prelude.{◌≡◌, ◌<◌, eqb};
ghost use Rattle.tree.specs.Limits.{most_words};
ghost use Rattle.tree.specs.Codes.{stmt_code};
ghost use Rattle.tree.specs.KindCodes.{kind_code};
ghost use Rattle.profile.specs.Profile.{statement, unsuited, procedure, body, lacks_body, lacks_invariant, exit};
ghost use Rattle.profile.specs.Labels.{places_of, label};

use crate::outline::Outline;
use tree::kind::{Kind, SECOND_WORD};
use tree::word::{MORE, NO_MORE, StmtTag};
use tree::{get, item_or};

impl<'a> Outline<'a> {
    // Whether a kind is expected at a place.
    fn is_kind(&self, kind: Kind, at: usize) -> bool
        ensures { result ≡ eqb ((places_of self.now).kind at) (kind_code kind) }
    {
        item_or(self.kinds, at, SECOND_WORD) == u16::from(kind)
    }

    // The place after what begins at a place.
    fn end(&self, at: usize) -> usize
        ensures { result ≡ (places_of self.now).end at }
    {
        usize::from(item_or(self.ends, at, 0))
    }

    // Whether a statement of that constructor begins at a place.
    pub(crate) fn is_statement(&self, tag: StmtTag, at: usize) -> bool
        ensures { result ≡ statement (places_of self.now) (stmt_code tag) at }
    {
        self.is_kind(Kind::Stmt, at) && get(self.words, at) == u32::from(tag)
    }

    // Rule 1 is broken at a place.
    pub(crate) fn is_unsuited(&self, at: usize) -> bool
        ensures { result ≡ unsuited (places_of self.now) at }
    {
        self.is_statement(StmtTag::Reach, at)
            || self.is_statement(StmtTag::AForall, at)
            || self.is_statement(StmtTag::Choose, at)
            || self.is_statement(StmtTag::Probe, at)
    }

    // Whether a procedure's first word stands at a place, behind the mark before it.
    fn is_procedure(&self, at: usize) -> bool
        ensures { result ≡ procedure (places_of self.now) at }
    {
        match at.checked_sub(1) {
            Some(mark) => self.is_kind(Kind::Procedures, mark) && get(self.words, mark) == MORE,
            None => false,
        }
    }

    // Where the procedure at a place says whether it has a body: behind its name, its parameters, and its conditions before and after.
    fn body(&self, at: usize) -> usize
        ensures { result ≡ body (places_of self.now) at }
    {
        self.end(self.end(self.end(self.end(at))))
    }

    // Rule 2 is broken at a place.
    pub(crate) fn lacks_body(&self, at: usize) -> bool
        ensures { result ≡ lacks_body (places_of self.now) at }
    {
        self.is_procedure(at) && get(self.words, self.body(at)) == NO_MORE
    }

    // Rule 3 is broken at a place.
    pub(crate) fn lacks_invariant(&self, at: usize) -> bool
        requires { at < most_words }
        ensures { result ≡ lacks_invariant (places_of self.now) at }
    {
        self.is_statement(StmtTag::Loop, at) && get(self.words, at + 1) == NO_MORE
    }

    // Whether an exit with a label stands at a place.
    pub(crate) fn is_exit(&self, at: usize) -> bool
        requires { at < most_words }
        ensures { result ≡ exit (places_of self.now) at }
    {
        self.is_statement(StmtTag::Exit, at) && get(self.words, at + 1) == MORE
    }

    // Where the label's name stands of a labelled statement, and of an exit with a label.
    pub(crate) fn label(&self, at: usize) -> Option<usize>
        requires { at < most_words }
        ensures { result ≡ label (places_of self.now) at }
    {
        if self.is_statement(StmtTag::LabeledStmt, at) {
            return Some(at + 1);
        }
        if self.is_exit(at) {
            return Some(at + 2);
        }
        None
    }
}
