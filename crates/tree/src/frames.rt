// The frames of the walk's stack.
ghost use Rattle.std.specs.Prelude.{◌≡◌, ◌<◌, map};
ghost use Rattle.tree.specs.Tally.{noted, more as more_of};
ghost use Rattle.tree.specs.KindCodes.{as_kind};
ghost use Rattle.tree.specs.Rows.{as_mark, passed_of, Splits, MarkIs, MoreIs, Adds, Enters};

use crate::kind::Kind;
use crate::outline::put;
use crate::stack::Stack;

// The mark of a sequence of which items are passed: where it starts, and how many are.
#[derive(Clone, Copy)]
pub(crate) struct Mark {
    start: u16,
    passed: u16,
}

// What is expected: kinds, the last with the mark.
#[derive(Clone, Copy)]
pub(crate) struct Frame {
    pub(crate) kinds: &'static [Kind],
    pub(crate) mark: Option<Mark>,
}

impl Frame {
    // Nothing.
    pub(crate) const EMPTY: Frame = Frame {
        kinds: &[],
        mark: None,
    };

    // The kind that is expected first, and what is expected after it.
    pub(crate) fn split(self) -> Option<(Kind, Frame)>
        ensures { Splits self result }
    {
        let (first, kinds) = self.kinds.split_first()?;
        Some((*first, Frame { kinds, ..self }))
    }

    // The mark of a kind at a place before what this frame expects: of a sequence that stands last the frame's own, where it has one.
    pub(crate) fn mark_before(self, kind: Kind, at: usize) -> Option<Mark>
        requires { at < 65536 }
        ensures { MarkIs self kind at result }
    {
        if !kind.is_sequence() {
            return None;
        }
        let start = Mark {
            start: at as u16,
            passed: 0,
        };
        if self.kinds.is_empty() {
            Some(self.mark.unwrap_or(start))
        } else {
            Some(start)
        }
    }
}

// One item more is passed.
pub(crate) fn more(mark: Option<Mark>) -> Option<Mark>
    requires { passed_of mark < 65535 }
    ensures { MoreIs mark result }
{
    let mark = mark?;
    Some(Mark {
        passed: mark.passed + 1,
        ..mark
    })
}

// Puts what is expected next on the stack.
fn expect(stack: &mut Stack<Frame>, frame: Frame)
    requires { 0 < stack.old.free }
    ensures { Adds frame stack.old stack.new }
{
    if !frame.kinds.is_empty() {
        let _ = stack.push(frame);
    }
}

// What is expected first: the fields of a word, with the rest on the stack under them, or the rest where there are no fields.
#[inline(always)]
pub(crate) fn enter(stack: &mut Stack<Frame>, fields: Frame, rest: Frame) -> Frame
    requires { 0 < stack.old.free }
    ensures { Enters fields rest stack.old result stack.new }
{
    if fields.kinds.is_empty() {
        return rest;
    }
    expect(stack, rest);
    fields
}

// Notes the number of a sequence that ends, as no fields follow, where the table of numbers has its place.
pub(crate) fn note(counts: &mut [u16], fields: &[Kind], mark: Option<Mark>)
    ensures { counts.new ≡ noted (map as_kind fields.now) (as_mark mark) counts.old }
{
    if !fields.is_empty() {
        return;
    }
    if let Some(mark) = mark {
        put(counts, usize::from(mark.start), mark.passed);
    }
}
