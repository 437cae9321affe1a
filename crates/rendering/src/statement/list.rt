// The sequences that hold statements: each method prints the items from the next word on, and passes them.
// Kept: loops of their own and not `separated`, as in expression/list.rt.
ghost use Rattle.rendering.specs.Parts.{Prints};
ghost use Rattle.rendering.specs.StmtParts.{statement_list, branch_list, case_sequence, a_expr_list};

use crate::printer::Printer;
use tree::word::NO_MORE;

impl Printer<'_> {
    // `StatementList`.
    // Kept: the mark ends the loop; the number only tells the last item, and a `for` over it would pass the marks unread.
    #[cycle(statement)]
    pub(crate) fn list(&mut self, indent: usize)
        ensures { Prints (statement_list indent) self.old self.new }
    {
        let mut left = self.count();
        while self.word() != NO_MORE {
            let is_last = left == 1;
            left = left.saturating_sub(1);
            self.indent(indent);
            self.stmt(indent, is_last);
        }
    }

    // The branches of a Choose.
    #[cycle(statement)]
    pub(crate) fn branches(&mut self, indent: usize)
        ensures { Prints (branch_list indent) self.old self.new }
    {
        while self.word() != NO_MORE {
            self.block(indent);
            let is_last = self.is_at_end();
            let end: &[u8] = if is_last { b"\n" } else { b" or " };
            self.put_any(end);
        }
    }

    // The cases of an IfCase.
    #[cycle(statement)]
    pub(crate) fn cases(&mut self, indent: usize)
        ensures { Prints (case_sequence indent) self.old self.new }
    {
        while self.word() != NO_MORE {
            self.put(b"case ");
            self.inline();
            self.put(b" ");
            self.block(indent);
            let is_last = self.is_at_end();
            let end: &[u8] = if is_last { b"\n" } else { b" " };
            self.put_any(end);
        }
    }

    // `PrintAExprs`.
    #[cycle(statement)]
    pub(crate) fn aexprs(&mut self, prefix: &[u8], indent: usize)
        ensures { Prints (a_expr_list prefix.now indent) self.old self.new }
    {
        while self.word() != NO_MORE {
            self.indent(indent);
            self.put_any(prefix);
            self.put(b" ");
            self.aexpr(indent);
        }
    }
}
