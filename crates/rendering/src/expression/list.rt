// The sequences that hold expressions: each method prints the items from the next word on, and passes them.
// Kept: loops of their own and not `separated`, since a closure that calls back into the cycle has to state its clauses, which is longer than a loop.
ghost use Rattle.std.specs.Prelude.{[]};
ghost use Rattle.rendering.specs.Parts.{Prints};
ghost use Rattle.rendering.specs.ExprParts.{expression_list, pattern_list, trigger_list, closure_list, property_list};

use crate::printer::Printer;
use crate::setting::Setting;
use layout::ExprFormatOption;
use tree::word::NO_MORE;

impl Printer<'_> {
    // `ExpressionList`.
    #[cycle(expression)]
    pub(crate) fn exprs(&mut self)
        ensures { Prints (expression_list []) self.old self.new }
    {
        let mut separator: &[u8] = b"";
        while self.word() != NO_MORE {
            self.put_any(separator);
            separator = b", ";
            self.expr(Setting::INLINE);
        }
    }

    // A quantifier's patterns.
    #[cycle(expression)]
    pub(crate) fn patterns(&mut self, format: ExprFormatOption)
        ensures { Prints (pattern_list format) self.old self.new }
    {
        while self.word() != NO_MORE {
            self.space(format);
            self.put(b"pattern ");
            self.exprs();
        }
    }

    // A closure property's triggers.
    #[cycle(expression)]
    fn triggers(&mut self)
        ensures { Prints trigger_list self.old self.new }
    {
        while self.word() != NO_MORE {
            self.put(b"trigger ");
            self.exprs();
            self.put(b" ");
        }
    }

    // A closure's bindings.
    #[cycle(expression)]
    pub(crate) fn closures(&mut self)
        ensures { Prints (closure_list []) self.old self.new }
    {
        let mut separator: &[u8] = b"";
        while self.word() != NO_MORE {
            self.put_any(separator);
            separator = b", ";
            self.name();
            self.parameters();
            self.put(b" := ");
            self.expr(Setting::INLINE);
        }
    }

    // A closure's properties.
    #[cycle(expression)]
    pub(crate) fn properties(&mut self)
        ensures { Prints (property_list []) self.old self.new }
    {
        let mut separator: &[u8] = b"";
        while self.word() != NO_MORE {
            self.put_any(separator);
            separator = b", ";
            let is_bare = self.is_at_end();
            self.triggers();
            if !is_bare {
                self.put(b":: ");
            }
            self.expr(Setting::INLINE);
        }
    }
}
