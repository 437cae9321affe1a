// The arena that trees are built in: nodes that are appended and never moved.
use tree::word::Operator;

// A node stands for a run of tree words. An arena of `Three(0, 0, 0)`, which is all zero bytes, is the fastest to make.
#[derive(Clone, Copy, PartialEq, Eq, Debug)]
pub enum Node {
    // Three words, two, one and none.
    Three(u32, u32, u32),
    Two(u32, u32),
    One(u32),
    Empty,
    // An identifier, and whether it stands under `old`.
    // Kept: the Bool is IdExpr's own field in RawAst, and chooses no step.
    Ident(u32, u32, bool),
    // An operator over one and over two operands.
    Unary(Operator, u32),
    Binary(Operator, u32, u32),
    // A sequence with an item more.
    Item(u32, u32),
    // A run after another.
    Pair(u32, u32),
    // A sequence with its end.
    Closed(u32),
    // A word and a run.
    Headed(u32, u32),
}

// The first two nodes: the empty run, a sequence before its first item; and the word 0, the end of a sequence without items.
// Kept: these are places of the arena, which links hold as they hold any other place, and no kinds.
pub(crate) const EMPTY: u32 = 0;

pub(crate) const END: u32 = 1;
