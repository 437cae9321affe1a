// The tree of a whole text, as a node of the arena.
ghost use Rattle.std.specs.Prelude.{◌≡◌};
ghost use Rattle.parsing.specs.Contract.{Spare, Reads, needed};
ghost use Rattle.parsing.specs.Parse.{roomy, whole_rule, ending, Parses};

use crate::arena::{EMPTY, END, Node};
use crate::parser::{Parser, unusable};
use lexing::blanks;
use lexing::refusal::{Reason, Refusal};
use tree::MOST_TEXT;
use tree::word::NO_MORE;

// What a text is read as.
// Kept: beside rendering's `Root`, which has an expression's format with it; as one type a reading would ask for a format.
#[derive(Clone, Copy, PartialEq, Eq, Debug)]
pub enum Whole {
    Expression,
    Program,
}

// The most nodes that an arena may have.
const MOST_ARENA: usize = 100_000;

// The depth limit (REFERENCE, "Limits").
const MOST_DEPTH: usize = 200;

// Whether an arena of n nodes has room for the tree of a text of `len` bytes.
fn has_room(len: usize, n: usize) -> bool
    ensures { result ≡ roomy len n }
{
    len <= MOST_TEXT && 11 + 2 * len <= n && n <= MOST_ARENA
}

impl<'a> Parser<'a> {
    // The rule of a whole text.
    fn whole(&mut self, whole: Whole) -> Result<u32, Refusal>
        requires { Spare self.old 9 }
        ensures { Reads (λ f. f) (needed (whole_rule whole)) 0 9 self.old self.new result }
    {
        match whole {
            Whole::Expression => self.need_expr(MOST_DEPTH),
            Whole::Program => self.program(MOST_DEPTH),
        }
    }

    // It, if it reads the text to its end.
    #[tactic(auto, using(crate::proofs::Laws::failing))]
    fn to_end(&mut self, whole: Whole) -> Result<u32, Refusal>
        requires { Spare self.old 9 }
        ensures { Reads (λ f. f) (ending (whole_rule whole)) 0 9 self.old self.new result }
    {
        let root = self.whole(whole)?;
        if self.at < self.text.len() {
            return Err(unusable(self.at));
        }
        Ok(root)
    }
}

// Reads a whole text into an arena of 11 nodes and two for each byte: the tree's node, or refusal 2, 3, 4 or 12. Refusal 5, where the arena has
// fewer nodes or more than 100,000, or the text more than 32,768 bytes. The nodes of the arena that are not of the tree are free afterwards,
// after a refusal all of them.
pub fn parse(text: &[u8], arena: &mut [Node], whole: Whole) -> Result<u32, Refusal>
    ensures { Parses whole text.now arena.old arena.new result }
{
    if !has_room(text.len(), arena.len()) {
        return Err(Refusal::new(Reason::TreeTooLarge, 0));
    }
    let at = blanks(text)?;
    arena[EMPTY as usize] = Node::Empty;
    arena[END as usize] = Node::One(NO_MORE);
    let mut parser = Parser {
        text,
        arena,
        at,
        top: 2,
    };
    parser.to_end(whole)
}
