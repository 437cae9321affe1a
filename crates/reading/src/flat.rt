// A node's words, written to a table by a walk with a stack of frames.
ghost use Rattle.std.specs.Prelude.{◌≤◌, ◌≡◌, [], length, replicate};
ghost use Rattle.parsing.specs.Arena.{Run, Holds};
ghost use Rattle.reading.specs.Flat.{Inside, frames_of, node_head, node_parts, head_of, parts_of, onto, Puts, Writes, Rooted, Flattened};

use crate::writer::{Full, Writer};
use parsing::Node;
use tree::stack::Stack;
use tree::word::{ExprTag, MORE, NO_MORE};

// What is still to be written.
#[derive(Clone, Copy, PartialEq, Eq, Debug)]
pub(crate) enum Frame {
    // A node.
    Whole(u32),
    // The word 1 and a node.
    Next(u32),
    // The word 1, a node and the word 0.
    Last(u32),
    // The word 0.
    End,
}

impl Writer<'_> {
    // Writes the words of a node before its parts.
    // Kept: the arm is the form of a value, which is read here; no step is chosen for another.
    #[tactic(auto, using(crate::proofs::flat::Words::writes_none))]
    fn node_head(&mut self, node: Node) -> Result<(), Full>
        ensures { Writes (node_head node) self.old self.new result }
    {
        match node {
            Node::Empty | Node::Item(_, _) | Node::Pair(_, _) | Node::Closed(_) => Ok(()),
            Node::One(x) | Node::Headed(x, _) => self.emit(&[x]),
            Node::Two(x, y) => self.emit(&[x, y]),
            Node::Three(x, y, z) => self.emit(&[x, y, z]),
            Node::Ident(x, y, old) => self.emit(&[ExprTag::IdExpr as u32, x, y, u32::from(old)]),
            Node::Unary(op, _) | Node::Binary(op, _, _) => {
                self.emit(&[ExprTag::OperatorExpr as u32, u32::from(op), MORE])
            }
        }
    }

    // Writes the words that a frame begins with.
    // Kept: as `node_head`.
    fn head(&mut self, arena: &[Node], frame: Frame) -> Result<(), Full>
        requires { Inside (length arena.now) frame }
        ensures { Writes (head_of arena.now frame) self.old self.new result }
    {
        match frame {
            Frame::Whole(node) => self.node_head(arena[node as usize]),
            Frame::Next(_) | Frame::Last(_) => self.emit(&[MORE]),
            Frame::End => self.emit(&[NO_MORE]),
        }
    }
}

// The frames of a node's parts, the first one and the one under it.
fn node_parts(node: Node) -> (Option<Frame>, Option<Frame>)
    ensures { frames_of result ≡ node_parts node }
{
    match node {
        Node::Unary(_, y) | Node::Closed(y) => (Some(Frame::Whole(y)), Some(Frame::End)),
        Node::Binary(_, y, z) => (Some(Frame::Whole(y)), Some(Frame::Last(z))),
        Node::Item(y, z) => (Some(Frame::Whole(y)), Some(Frame::Next(z))),
        Node::Pair(y, z) => (Some(Frame::Whole(y)), Some(Frame::Whole(z))),
        Node::Headed(_, y) => (Some(Frame::Whole(y)), None),
        _ => (None, None),
    }
}

// The frames that a frame leaves after its first words.
fn parts(arena: &[Node], frame: Frame) -> (Option<Frame>, Option<Frame>)
    requires { Inside (length arena.now) frame }
    ensures { frames_of result ≡ parts_of arena.now frame }
{
    match frame {
        Frame::Whole(node) => node_parts(arena[node as usize]),
        Frame::Next(node) => (Some(Frame::Whole(node)), None),
        Frame::Last(node) => (Some(Frame::Whole(node)), Some(Frame::End)),
        Frame::End => (None, None),
    }
}

// Puts a frame, if there is one, on a stack.
fn put(stack: &mut Stack<'_, Frame>, frame: Option<Frame>)
    requires { length (onto frame []) ≤ stack.old.free }
    ensures { Puts frame stack.old stack.new }
{
    if let Some(frame) = frame {
        let _ = stack.push(frame);
    }
}

impl Writer<'_> {
    // Writes the words of a node, with a stack of so many places.
    fn tree(&mut self, arena: &[Node], root: u32, places: &mut [Frame]) -> Result<(), Full>
        requires { Rooted arena.now (length places.old) root }
        ensures { (f : Run) → Holds arena.now root f → Writes f self.old self.new result }
    {
        let mut stack = Stack::new(places);
        let _ = stack.push(Frame::Whole(root));
        while let Some(frame) = stack.pop() {
            self.head(arena, frame)?;
            let (upper, lower) = parts(arena, frame);
            put(&mut stack, lower);
            put(&mut stack, upper);
        }
        Ok(())
    }
}

// Writes the words of a node to a table of zeros, and answers how many there are.
pub(crate) fn flatten(
    arena: &[Node],
    root: u32,
    places: &mut [Frame],
    table: &mut [u32],
) -> Result<usize, Full>
    requires rooted { Rooted arena.now (length places.old) root }
    requires clear { table.old ≡ replicate (length table.old) 0 }
    ensures { (f : Run) → Holds arena.now root f → Flattened (f []) table.old table.new result }
{
    let mut writer = Writer { table, len: 0 };
    writer.tree(arena, root, places)?;
    Ok(writer.len)
}
