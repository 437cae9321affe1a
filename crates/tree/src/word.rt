// The words of a table that are fixed (REFERENCE, "The tree words"), by RawAst.dfy's names.
ghost use Rattle.std.specs.Prelude.{◌≡◌};
ghost use Rattle.tree.specs.Codes.{mode_code, operator_code, expr_code, stmt_code, aexpr_code, Decodes, Converts};

// Before the content of an option and each item of a sequence stands MORE; in the place of a content, and after the last item, NO_MORE.
// Kept: these two and the two Bools are constants. They are marks of the format, compared with a word that may be any other; as the words of an
// enum of two they would be a bool with its conversion.
pub const NO_MORE: u32 = 0;

pub const MORE: u32 = 1;

// Bool.
// Kept: constants, as above.
pub const FALSE: u32 = 0;

pub const TRUE: u32 = 1;

// The error of a word or number that none has.
#[derive(Clone, Copy, PartialEq, Eq, Debug)]
pub struct Unknown;

// Kept: `from_word` beside the conversion, five times: `try_from(..).ok()` by a name, since that a word is none's is no error where it is called.

// ParameterMode.
#[derive(Clone, Copy, PartialEq, Eq, Debug)]
pub enum Mode {
    In = 1,
    InOut = 2,
    Out = 3,
}

impl From<Mode> for u32 {
    ghost from_gives = { λ mode word. word ≡ mode_code mode };

    fn from(mode: Mode) -> u32 {
        mode as u32
    }
}

impl TryFrom<u32> for Mode {
    type Error = Unknown;

    ghost try_from_gives = { λ word mode. Converts mode_code word mode };

    fn try_from(word: u32) -> Result<Mode, Unknown> {
        match word {
            1 => Ok(Mode::In),
            2 => Ok(Mode::InOut),
            3 => Ok(Mode::Out),
            _ => Err(Unknown),
        }
    }
}

impl Mode {
    // The one with that word, where there is one.
    pub fn from_word(word: u32) -> Option<Mode>
        ensures { Decodes mode_code word result }
    {
        Mode::try_from(word).ok()
    }
}

// Operator.
#[derive(Clone, Copy, PartialEq, Eq, Debug)]
pub enum Operator {
    IfThenElse = 1,
    Equiv = 2,
    LogicalImp = 3,
    LogicalAnd = 4,
    LogicalOr = 5,
    Eq = 6,
    Neq = 7,
    Less = 8,
    AtMost = 9,
    Plus = 10,
    Minus = 11,
    Times = 12,
    Div = 13,
    Mod = 14,
    LogicalNot = 15,
    UnaryMinus = 16,
}

impl From<Operator> for u32 {
    ghost from_gives = { λ operator word. word ≡ operator_code operator };

    fn from(operator: Operator) -> u32 {
        operator as u32
    }
}

impl TryFrom<u32> for Operator {
    type Error = Unknown;

    ghost try_from_gives = { λ word operator. Converts operator_code word operator };

    fn try_from(word: u32) -> Result<Operator, Unknown> {
        match word {
            1 => Ok(Operator::IfThenElse),
            2 => Ok(Operator::Equiv),
            3 => Ok(Operator::LogicalImp),
            4 => Ok(Operator::LogicalAnd),
            5 => Ok(Operator::LogicalOr),
            6 => Ok(Operator::Eq),
            7 => Ok(Operator::Neq),
            8 => Ok(Operator::Less),
            9 => Ok(Operator::AtMost),
            10 => Ok(Operator::Plus),
            11 => Ok(Operator::Minus),
            12 => Ok(Operator::Times),
            13 => Ok(Operator::Div),
            14 => Ok(Operator::Mod),
            15 => Ok(Operator::LogicalNot),
            16 => Ok(Operator::UnaryMinus),
            _ => Err(Unknown),
        }
    }
}

impl Operator {
    // The one with that word, where there is one.
    pub fn from_word(word: u32) -> Option<Operator>
        ensures { Decodes operator_code word result }
    {
        Operator::try_from(word).ok()
    }
}

// The constructors of Expr.
#[derive(Clone, Copy, PartialEq, Eq, Debug)]
pub enum ExprTag {
    BLiteral = 1,
    ILiteral = 2,
    CustomLiteral = 3,
    IdExpr = 4,
    OperatorExpr = 5,
    FunctionCallExpr = 6,
    LabeledExpr = 7,
    LetExpr = 8,
    QuantifierExpr = 9,
    ClosureExpr = 10,
}

impl From<ExprTag> for u32 {
    ghost from_gives = { λ tag word. word ≡ expr_code tag };

    fn from(tag: ExprTag) -> u32 {
        tag as u32
    }
}

impl TryFrom<u32> for ExprTag {
    type Error = Unknown;

    ghost try_from_gives = { λ word tag. Converts expr_code word tag };

    fn try_from(word: u32) -> Result<ExprTag, Unknown> {
        match word {
            1 => Ok(ExprTag::BLiteral),
            2 => Ok(ExprTag::ILiteral),
            3 => Ok(ExprTag::CustomLiteral),
            4 => Ok(ExprTag::IdExpr),
            5 => Ok(ExprTag::OperatorExpr),
            6 => Ok(ExprTag::FunctionCallExpr),
            7 => Ok(ExprTag::LabeledExpr),
            8 => Ok(ExprTag::LetExpr),
            9 => Ok(ExprTag::QuantifierExpr),
            10 => Ok(ExprTag::ClosureExpr),
            _ => Err(Unknown),
        }
    }
}

impl ExprTag {
    // The one with that word, where there is one.
    pub fn from_word(word: u32) -> Option<ExprTag>
        ensures { Decodes expr_code word result }
    {
        ExprTag::try_from(word).ok()
    }
}

// The constructors of Stmt.
#[derive(Clone, Copy, PartialEq, Eq, Debug)]
pub enum StmtTag {
    VarDecl = 21,
    Assign = 22,
    Reinit = 23,
    Block = 24,
    Call = 25,
    Check = 26,
    Assume = 27,
    Reach = 28,
    Assert = 29,
    AForall = 30,
    Choose = 31,
    If = 32,
    IfCase = 33,
    Loop = 34,
    LabeledStmt = 35,
    Exit = 36,
    Return = 37,
    Probe = 38,
}

impl From<StmtTag> for u32 {
    ghost from_gives = { λ tag word. word ≡ stmt_code tag };

    fn from(tag: StmtTag) -> u32 {
        tag as u32
    }
}

impl TryFrom<u32> for StmtTag {
    type Error = Unknown;

    ghost try_from_gives = { λ word tag. Converts stmt_code word tag };

    fn try_from(word: u32) -> Result<StmtTag, Unknown> {
        match word {
            21 => Ok(StmtTag::VarDecl),
            22 => Ok(StmtTag::Assign),
            23 => Ok(StmtTag::Reinit),
            24 => Ok(StmtTag::Block),
            25 => Ok(StmtTag::Call),
            26 => Ok(StmtTag::Check),
            27 => Ok(StmtTag::Assume),
            28 => Ok(StmtTag::Reach),
            29 => Ok(StmtTag::Assert),
            30 => Ok(StmtTag::AForall),
            31 => Ok(StmtTag::Choose),
            32 => Ok(StmtTag::If),
            33 => Ok(StmtTag::IfCase),
            34 => Ok(StmtTag::Loop),
            35 => Ok(StmtTag::LabeledStmt),
            36 => Ok(StmtTag::Exit),
            37 => Ok(StmtTag::Return),
            38 => Ok(StmtTag::Probe),
            _ => Err(Unknown),
        }
    }
}

impl StmtTag {
    // The one with that word, where there is one.
    pub fn from_word(word: u32) -> Option<StmtTag>
        ensures { Decodes stmt_code word result }
    {
        StmtTag::try_from(word).ok()
    }
}

// The constructors of AExpr.
#[derive(Clone, Copy, PartialEq, Eq, Debug)]
pub enum AExprTag {
    AExpr = 1,
    AAssertion = 2,
}

impl From<AExprTag> for u32 {
    ghost from_gives = { λ tag word. word ≡ aexpr_code tag };

    fn from(tag: AExprTag) -> u32 {
        tag as u32
    }
}

impl TryFrom<u32> for AExprTag {
    type Error = Unknown;

    ghost try_from_gives = { λ word tag. Converts aexpr_code word tag };

    fn try_from(word: u32) -> Result<AExprTag, Unknown> {
        match word {
            1 => Ok(AExprTag::AExpr),
            2 => Ok(AExprTag::AAssertion),
            _ => Err(Unknown),
        }
    }
}

impl AExprTag {
    // The one with that word, where there is one.
    pub fn from_word(word: u32) -> Option<AExprTag>
        ensures { Decodes aexpr_code word result }
    {
        AExprTag::try_from(word).ok()
    }
}
