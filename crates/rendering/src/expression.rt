// Printer.dfy's `Expression`. Each method prints the words from the next one on, and passes them.
mod list;

ghost use Rattle.rendering.specs.Parts.{Prints};
ghost use Rattle.rendering.specs.ExprParts.{IsIf, an_expr, an_operator_expr, a_call, a_label, a_let, a_quantifier, a_closure};
ghost use Rattle.rendering.specs.ExprParts.{a_form, a_listed, a_unary, a_binary, a_conditional, an_else};

use crate::operator::{argument_count, binding_strength, breaks_line, spelling};
use crate::printer::Printer;
use crate::setting::Setting;
use layout::{BindingPower, ExprFormatOption, Side};
use tree::word::{ExprTag, Operator};

impl Printer<'_> {
    // An expression.
    // Kept: the arm is chosen by a word of the table, which decides at once; no step is handed down.
    #[cycle(expression)]
    pub(crate) fn expr(&mut self, setting: Setting)
        ensures { Prints (an_expr setting.context setting.format) self.old self.new }
    {
        match ExprTag::from_word(self.word()) {
            Some(ExprTag::BLiteral) => self.bool_literal(),
            Some(ExprTag::ILiteral) => self.natural_literal(),
            Some(ExprTag::CustomLiteral) => self.custom_literal(),
            Some(ExprTag::IdExpr) => self.identifier(),
            Some(ExprTag::OperatorExpr) => self.operator_expr(setting),
            Some(ExprTag::FunctionCallExpr) => self.call_expr(),
            Some(ExprTag::LabeledExpr) => self.labeled_expr(setting),
            Some(ExprTag::LetExpr) => self.let_expr(setting),
            Some(ExprTag::QuantifierExpr) => self.quantifier_expr(setting),
            Some(ExprTag::ClosureExpr) => self.closure_expr(),
            None => {}
        }
    }

    #[cycle(expression)]
    fn operator_expr(&mut self, setting: Setting)
        ensures { Prints (an_operator_expr setting.context setting.format) self.old self.new }
    {
        if let Some(op) = Operator::from_word(self.word()) {
            let strength = binding_strength(op);
            self.parenthesis(strength, Side::Left, setting.context);
            self.operands(op, setting);
            self.parenthesis(strength, Side::Right, setting.context);
        }
    }

    // The alternative of an operator by the number of its operands.
    #[cycle(expression)]
    fn operands(&mut self, op: Operator, setting: Setting)
        ensures { Prints (a_form op setting.context setting.format) self.old self.new }
    {
        let count = self.count();
        if count != argument_count(op) {
            return self.listed(op);
        }
        match count {
            1 => self.unary(op, setting),
            2 => self.binary(op, setting),
            _ => self.conditional(op, setting),
        }
    }

    #[cycle(expression)]
    fn unary(&mut self, op: Operator, setting: Setting)
        ensures { Prints (a_unary op setting.context) self.old self.new }
    {
        self.put_any(spelling(op));
        self.word();
        let flat = setting.in_format(ExprFormatOption::SingleLine);
        self.expr(flat.operand(binding_strength(op), Side::Right));
        self.word();
    }

    #[cycle(expression)]
    fn binary(&mut self, op: Operator, setting: Setting)
        ensures { Prints (a_binary op setting.context setting.format) self.old self.new }
    {
        let strength = binding_strength(op);
        let flat = setting.in_format(ExprFormatOption::SingleLine);
        self.word();
        self.expr(flat.operand(strength, Side::Left));
        let broken = ExprFormatOption::choose(breaks_line(op), setting.format, flat.format);
        self.put(b" ");
        self.put_any(spelling(op));
        self.space(broken);
        self.word();
        self.expr(setting.in_format(broken).operand(strength, Side::Right));
        self.word();
    }

    // IfThenElse of three operands.
    #[cycle(expression)]
    fn conditional(&mut self, op: Operator, setting: Setting)
        ensures { Prints (a_conditional op setting.context setting.format) self.old self.new }
    {
        let deeper = setting.format.more(self.source.step);
        self.put(b"if ");
        self.word();
        self.expr(Setting::INLINE);
        self.space(deeper);
        self.word();
        self.expr(Setting::outermost(deeper));
        self.space(setting.format);
        self.put(b"else");
        self.word();
        self.else_branch(setting.operand(binding_strength(op), Side::Right), deeper);
        self.word();
    }

    // The expression after `else`: an IfThenElse stays on the line.
    #[cycle(expression)]
    fn else_branch(&mut self, setting: Setting, deeper: ExprFormatOption)
        ensures { Prints (an_else setting.context setting.format deeper) self.old self.new }
    {
        if self.is_if() {
            self.put(b" ");
            self.expr(setting);
        } else {
            self.space(deeper);
            self.expr(setting.in_format(deeper));
        }
    }

    // Whether an IfThenElse stands here, of any number of operands.
    fn is_if(&self) -> bool
        ensures { IsIf self.now result }
    {
        self.ahead(0) == ExprTag::OperatorExpr as u32
            && self.ahead(1) == Operator::IfThenElse as u32
    }

    // `op(args)`.
    #[cycle(expression)]
    fn listed(&mut self, op: Operator)
        ensures { Prints (a_listed op) self.old self.new }
    {
        self.put_any(spelling(op));
        self.put(b"(");
        self.exprs();
        self.put(b")");
    }

    #[cycle(expression)]
    fn call_expr(&mut self)
        ensures { Prints a_call self.old self.new }
    {
        self.name_then(b"(");
        self.exprs();
        self.put(b")");
    }

    #[cycle(expression)]
    fn labeled_expr(&mut self, setting: Setting)
        ensures { Prints (a_label setting.context setting.format) self.old self.new }
    {
        self.parenthesis(BindingPower::ENDLESS_OPERATOR, Side::Left, setting.context);
        self.name_then(b": ");
        self.expr(setting.operand(BindingPower::ENDLESS_OPERATOR, Side::Right));
        self.parenthesis(BindingPower::ENDLESS_OPERATOR, Side::Right, setting.context);
    }

    #[cycle(expression)]
    fn let_expr(&mut self, setting: Setting)
        ensures { Prints (a_let setting.context setting.format) self.old self.new }
    {
        self.parenthesis(BindingPower::ENDLESS_OPERATOR, Side::Left, setting.context);
        self.id_type(b"val ");
        self.put(b" := ");
        self.expr(Setting::INLINE);
        self.space(setting.format);
        self.expr(setting.operand(BindingPower::ENDLESS_OPERATOR, Side::Right));
        self.parenthesis(BindingPower::ENDLESS_OPERATOR, Side::Right, setting.context);
    }

    #[cycle(expression)]
    fn quantifier_expr(&mut self, setting: Setting)
        ensures { Prints (a_quantifier setting.context setting.format) self.old self.new }
    {
        let deeper = setting.in_format(setting.format.more(self.source.step));
        self.parenthesis(BindingPower::ENDLESS_OPERATOR, Side::Left, setting.context);
        self.quantified();
        self.patterns(deeper.format);
        self.space(deeper.format);
        self.expr(deeper.operand(BindingPower::ENDLESS_OPERATOR, Side::Right));
        self.parenthesis(BindingPower::ENDLESS_OPERATOR, Side::Right, setting.context);
    }

    #[cycle(expression)]
    fn closure_expr(&mut self)
        ensures { Prints a_closure self.old self.new }
    {
        self.put(b"lift ");
        self.closures();
        self.put(b" into ");
        self.typed();
        self.put(b" by { ");
        self.properties();
        self.put(b" }");
    }
}
