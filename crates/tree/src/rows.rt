// The rows: the kinds of a constructor's fields, and of what stands after a 1 in an option or a sequence.
ghost use Rattle.std.specs.Prelude.{◌≡◌, [], ◌∷◌, map};
ghost use Rattle.tree.specs.Kind.{expr, stmt, aexpr, second, tagged, by_row};
ghost use Rattle.tree.specs.KindCodes.{as_kind};
ghost use Rattle.tree.specs.Codes.{expr_code, stmt_code, aexpr_code};
ghost use Rattle.tree.specs.Rows.{word_fields, content_fields, as_turn};

use crate::kind::Kind;
use crate::word::{AExprTag, ExprTag, MORE, Mode, NO_MORE, Operator, StmtTag, TRUE};

// The fields of Expr's constructors.
fn expr_row(tag: ExprTag) -> &'static [Kind]
    ensures { map as_kind result.now ≡ word_fields expr (expr_code tag) }
{
    match tag {
        ExprTag::BLiteral => &[Kind::Bool],
        ExprTag::ILiteral => &[Kind::Natural],
        ExprTag::CustomLiteral => &[Kind::Name, Kind::Name],
        ExprTag::IdExpr => &[Kind::Name, Kind::Bool],
        ExprTag::OperatorExpr => &[Kind::Operator, Kind::Exprs],
        ExprTag::FunctionCallExpr => &[Kind::Name, Kind::Exprs],
        ExprTag::LabeledExpr => &[Kind::Name, Kind::Expr],
        ExprTag::LetExpr => &[Kind::Name, Kind::OptionName, Kind::Expr, Kind::Expr],
        ExprTag::QuantifierExpr => &[Kind::Bool, Kind::Bindings, Kind::Patterns, Kind::Expr],
        ExprTag::ClosureExpr => &[
            Kind::ClosureBindings,
            Kind::Name,
            Kind::Name,
            Kind::ClosureProperties,
        ],
    }
}

// The fields of Stmt's constructors; the variable of a VarDecl is its four fields.
fn stmt_row(tag: StmtTag) -> &'static [Kind]
    ensures { map as_kind result.now ≡ word_fields stmt (stmt_code tag) }
{
    match tag {
        StmtTag::VarDecl => &[
            Kind::Name,
            Kind::Bool,
            Kind::OptionName,
            Kind::OptionExpr,
            Kind::OptionExpr,
            Kind::Stmt,
        ],
        StmtTag::Assign => &[Kind::Name, Kind::Expr],
        StmtTag::Reinit => &[Kind::Names],
        StmtTag::Block => &[Kind::Stmts],
        StmtTag::Call => &[Kind::Name, Kind::CallArguments],
        StmtTag::Check => &[Kind::Expr],
        StmtTag::Assume => &[Kind::Expr],
        StmtTag::Reach => &[Kind::Expr],
        StmtTag::Assert => &[Kind::Expr],
        StmtTag::AForall => &[Kind::Name, Kind::Name, Kind::Stmt],
        StmtTag::Choose => &[Kind::Stmts],
        StmtTag::If => &[Kind::Expr, Kind::Stmt, Kind::Stmt],
        StmtTag::IfCase => &[Kind::Cases],
        StmtTag::Loop => &[Kind::AExprs, Kind::Stmt],
        StmtTag::LabeledStmt => &[Kind::Name, Kind::Stmt],
        StmtTag::Exit => &[Kind::OptionName],
        StmtTag::Return => &[],
        StmtTag::Probe => &[Kind::Expr],
    }
}

// The fields of AExpr's constructors.
fn aexpr_row(tag: AExprTag) -> &'static [Kind]
    ensures { map as_kind result.now ≡ word_fields aexpr (aexpr_code tag) }
{
    match tag {
        AExprTag::AExpr => &[Kind::Expr],
        AExprTag::AAssertion => &[Kind::Stmt],
    }
}

// What stands after a 1 in an option or a sequence of that kind, in a sequence with its rest; nothing of another kind.
fn content_row(kind: Kind) -> &'static [Kind]
    ensures { map as_kind result.now ≡ content_fields (as_kind kind) }
{
    match kind {
        Kind::OptionName => &[Kind::Name],
        Kind::OptionExpr => &[Kind::Expr],
        Kind::OptionStmt => &[Kind::Stmt],
        Kind::OptionDefinition => &[Kind::Exprs, Kind::Expr],
        Kind::Names => &[Kind::Name, Kind::Names],
        Kind::Exprs => &[Kind::Expr, Kind::Exprs],
        Kind::Bindings => &[Kind::Name, Kind::Name, Kind::Bindings],
        Kind::Patterns => &[Kind::Exprs, Kind::Patterns],
        Kind::ClosureBindings => &[
            Kind::Name,
            Kind::Bindings,
            Kind::Expr,
            Kind::ClosureBindings,
        ],
        Kind::ClosureProperties => &[Kind::Patterns, Kind::Expr, Kind::ClosureProperties],
        Kind::Stmts => &[Kind::Stmt, Kind::Stmts],
        Kind::CallArguments => &[Kind::Mode, Kind::Expr, Kind::CallArguments],
        Kind::Cases => &[Kind::Expr, Kind::Stmt, Kind::Cases],
        Kind::AExprs => &[Kind::AExpr, Kind::AExprs],
        Kind::Taggers => &[Kind::Name, Kind::Name, Kind::Taggers],
        Kind::FParameters => &[Kind::Name, Kind::Bool, Kind::Name, Kind::FParameters],
        Kind::Functions => &[
            Kind::Name,
            Kind::FParameters,
            Kind::Name,
            Kind::OptionName,
            Kind::OptionDefinition,
            Kind::Functions,
        ],
        Kind::Axioms => &[Kind::Names, Kind::Expr, Kind::Axioms],
        Kind::PParameters => &[
            Kind::Name,
            Kind::Mode,
            Kind::Name,
            Kind::OptionExpr,
            Kind::PParameters,
        ],
        Kind::Procedures => &[
            Kind::Name,
            Kind::PParameters,
            Kind::AExprs,
            Kind::AExprs,
            Kind::OptionStmt,
            Kind::Procedures,
        ],
        _ => &[],
    }
}

// The row that a word of that kind begins, where there is such a word; a name and a natural, whose words may be any, have none. The check of
// a table takes a fifth fewer instructions with it inlined.
// Kept: the arm is the form of a value, which is read here; no step is chosen for another.
#[inline(always)]
pub(crate) fn row_of(kind: Kind, word: u32) -> Option<&'static [Kind]>
    ensures { as_turn result ≡ by_row (as_kind kind) word }
{
    match kind {
        Kind::Bool => leaf(word <= TRUE),
        Kind::Operator => leaf(Operator::from_word(word).is_some()),
        Kind::Mode => leaf(Mode::from_word(word).is_some()),
        Kind::Expr => Some(expr_row(ExprTag::from_word(word)?)),
        Kind::Stmt => Some(stmt_row(StmtTag::from_word(word)?)),
        Kind::AExpr => Some(aexpr_row(AExprTag::from_word(word)?)),
        Kind::Name | Kind::Natural => None,
        _ => mark_row(kind, word),
    }
}

// That of a word without fields, where it fits.
// Kept: `fits` is the answer of a test, with no value beside it.
fn leaf(fits: bool) -> Option<&'static [Kind]>
    ensures { as_turn result ≡ second fits 0 }
{
    if fits { Some(&[]) } else { None }
}

// That of an option's or a sequence's mark: nothing follows 0, and its content follows 1.
fn mark_row(kind: Kind, word: u32) -> Option<&'static [Kind]>
    ensures { as_turn result ≡ tagged 0 ([] ∷ content_fields (as_kind kind) ∷ []) word }
{
    match word {
        NO_MORE => Some(&[]),
        MORE => Some(content_row(kind)),
        _ => None,
    }
}
