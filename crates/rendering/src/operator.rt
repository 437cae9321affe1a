// The operators of RawAst.dfy: how many operands they take, how strongly they pull, how they are spelt.
ghost use Rattle.std.specs.Prelude.{◌≡◌};
ghost use Rattle.lexing.specs.Bytes.{bytes};
ghost use Rattle.tree.specs.Ast.{ArgumentCount};
ghost use Rattle.tree.specs.Codes.{as_operator};
ghost use Rattle.layout.specs.PrintUtil.{ToString, BindingStrength};
ghost use Rattle.layout.specs.Printer.{breaks_line};

use layout::{BindingPower, TieBreaker};
use tree::word::Operator;

// Upstream's `opFamily` of the operators that mix with their own kind alone.
// Kept: two numbers, since a family of layout's `TieBreaker` is any number.
const CONJUNCTION: u8 = 0;

const DISJUNCTION: u8 = 1;

pub(crate) fn argument_count(op: Operator) -> usize
    ensures { result ≡ ArgumentCount (as_operator op) }
{
    match op {
        Operator::IfThenElse => 3,
        Operator::LogicalNot | Operator::UnaryMinus => 1,
        _ => 2,
    }
}

// Whether the format may break the line after the operator.
pub(crate) fn breaks_line(op: Operator) -> bool
    ensures { result ≡ breaks_line (as_operator op) }
{
    match op {
        Operator::LogicalImp | Operator::LogicalAnd | Operator::LogicalOr => true,
        _ => false,
    }
}

#[inline(always)]
pub(crate) fn binding_strength(op: Operator) -> BindingPower
    ensures { result ≡ BindingStrength (as_operator op) }
{
    match op {
        Operator::IfThenElse => BindingPower::ENDLESS_OPERATOR,
        Operator::Equiv => BindingPower::new(20, 20, TieBreaker::OperatorWins),
        Operator::LogicalImp => BindingPower::new(31, 30, TieBreaker::OperatorWins),
        Operator::LogicalAnd => BindingPower::new(40, 40, TieBreaker::SameFamilyWins(CONJUNCTION)),
        Operator::LogicalOr => BindingPower::new(40, 40, TieBreaker::SameFamilyWins(DISJUNCTION)),
        Operator::Eq | Operator::Neq | Operator::Less | Operator::AtMost => {
            BindingPower::new(50, 50, TieBreaker::ContextWins)
        }
        Operator::Plus => BindingPower::new(60, 60, TieBreaker::OperatorWins),
        Operator::Minus => BindingPower::new(60, 61, TieBreaker::OperatorWins),
        Operator::Times => BindingPower::new(70, 70, TieBreaker::OperatorWins),
        Operator::Div | Operator::Mod => BindingPower::new(70, 71, TieBreaker::OperatorWins),
        Operator::LogicalNot | Operator::UnaryMinus => {
            BindingPower::new(80, 80, TieBreaker::OperatorWins)
        }
    }
}

#[inline]
pub(crate) fn spelling(op: Operator) -> &'static [u8]
    ensures { result.now ≡ bytes (ToString (as_operator op)) }
{
    match op {
        Operator::IfThenElse => b"if-then-else",
        Operator::Equiv => b"<==>",
        Operator::LogicalImp => b"==>",
        Operator::LogicalAnd => b"&&",
        Operator::LogicalOr => b"||",
        Operator::Eq => b"==",
        Operator::Neq => b"!=",
        Operator::Less => b"<",
        Operator::AtMost => b"<=",
        Operator::Plus => b"+",
        Operator::Minus => b"-",
        Operator::Times => b"*",
        Operator::Div => b"div",
        Operator::Mod => b"mod",
        Operator::LogicalNot => b"!",
        Operator::UnaryMinus => b"-",
    }
}
