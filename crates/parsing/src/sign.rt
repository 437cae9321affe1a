// Operators between operands and before them.
ghost use Rattle.std.specs.Prelude.{◌≡◌, ◌≤◌};
ghost use Rattle.tree.specs.Codes.{as_operator};
ghost use Rattle.grammar.specs.Rules.{unary_operator};
ghost use Rattle.parsing.specs.Contract.{Takes_if};
ghost use Rattle.parsing.specs.Signs.{build_of, Operates, class_of, level_rule, begins_operator, spelt, size, table_rule, Filled, Tabled};

use crate::parser::Parser;
use lexing::refusal::Refusal;
use tree::word::Operator;

// The levels of binary operators.
#[derive(Clone, Copy, PartialEq, Eq, Debug)]
pub(crate) enum Level {
    Product,
    Sum,
    Comparison,
    Conjunction,
    Disjunction,
    Implication,
    Explication,
    Equivalence,
}

// An operator between operands, with those in text order or swapped.
#[derive(Clone, Copy, PartialEq, Eq, Debug)]
pub(crate) enum Sign {
    Straight(Operator),
    Swapped(Operator),
}

// How an operator is written: a symbol, a symbol that is not the head of the longer one, or a word.
#[derive(Clone, Copy)]
enum Spelling<'a> {
    Sym(&'a [u8]),
    SymNotPrefix(&'a [u8], &'a [u8]),
    Keyword(&'a [u8]),
}

// The operators of the levels, each with its spelling, and those before an operand.
static FACTORS: [(Spelling<'static>, Sign); 3] = [
    (Spelling::Sym(b"*"), Sign::Straight(Operator::Times)),
    (Spelling::Keyword(b"div"), Sign::Straight(Operator::Div)),
    (Spelling::Keyword(b"mod"), Sign::Straight(Operator::Mod)),
];

static TERMS: [(Spelling<'static>, Sign); 2] = [
    (Spelling::Sym(b"+"), Sign::Straight(Operator::Plus)),
    (Spelling::Sym(b"-"), Sign::Straight(Operator::Minus)),
];

static COMPARISONS: [(Spelling<'static>, Sign); 6] = [
    (
        Spelling::SymNotPrefix(b"==", b"==>"),
        Sign::Straight(Operator::Eq),
    ),
    (Spelling::Sym(b"!="), Sign::Straight(Operator::Neq)),
    (
        Spelling::SymNotPrefix(b"<=", b"<=="),
        Sign::Straight(Operator::AtMost),
    ),
    (
        Spelling::SymNotPrefix(b"<", b"<=="),
        Sign::Straight(Operator::Less),
    ),
    (Spelling::Sym(b">="), Sign::Swapped(Operator::AtMost)),
    (Spelling::Sym(b">"), Sign::Swapped(Operator::Less)),
];

static CONJUNCTIONS: [(Spelling<'static>, Sign); 1] = [(
    Spelling::Sym(b"&&"),
    Sign::Straight(Operator::LogicalAnd),
)];

static DISJUNCTIONS: [(Spelling<'static>, Sign); 1] = [(
    Spelling::Sym(b"||"),
    Sign::Straight(Operator::LogicalOr),
)];

static IMPLICATIONS: [(Spelling<'static>, Sign); 1] = [(
    Spelling::Sym(b"==>"),
    Sign::Straight(Operator::LogicalImp),
)];

static EXPLICATIONS: [(Spelling<'static>, Sign); 1] = [(
    Spelling::SymNotPrefix(b"<==", b"<==>"),
    Sign::Swapped(Operator::LogicalImp),
)];

static EQUIVALENCES: [(Spelling<'static>, Sign); 1] = [(
    Spelling::Sym(b"<==>"),
    Sign::Straight(Operator::Equiv),
)];

static UNARIES: [(Spelling<'static>, Operator); 2] = [
    (Spelling::SymNotPrefix(b"!", b"!="), Operator::LogicalNot),
    (Spelling::Sym(b"-"), Operator::UnaryMinus),
];

impl Level {
    // The operators of the level.
    fn table(self) -> &'static [(Spelling<'static>, Sign)]
        ensures { Tabled self result.now }
    {
        match self {
            Level::Product => &FACTORS,
            Level::Sum => &TERMS,
            Level::Comparison => &COMPARISONS,
            Level::Conjunction => &CONJUNCTIONS,
            Level::Disjunction => &DISJUNCTIONS,
            Level::Implication => &IMPLICATIONS,
            Level::Explication => &EXPLICATIONS,
            Level::Equivalence => &EQUIVALENCES,
        }
    }
}

impl<'a> Parser<'a> {
    // Whether a spelling stands here, which is passed.
    // Kept: the arm is the form of a value that stands in a table, and its bytes are the arguments.
    #[inline(always)]
    fn spelt(&mut self, spelling: Spelling) -> Result<bool, Refusal>
        requires { 1 ≤ size spelling }
        ensures { Takes_if (spelt spelling.entry) (size spelling.entry) self.old self.new result }
    {
        match spelling {
            Spelling::Sym(bytes) => self.sym(bytes),
            Spelling::SymNotPrefix(bytes, longer) => self.sym_not_prefix(bytes, longer),
            Spelling::Keyword(bytes) => self.keyword(bytes),
        }
    }

    // What a table has beside the first of its spellings that stands here.
    #[inline(always)]
    #[tactic(auto, using(crate::proofs::Laws::failing))]
    fn first_of<T: Copy>(&mut self, table: &[(Spelling, T)]) -> Result<Option<T>, Refusal>
        requires { Filled table.now }
        ensures { Operates (λ v. v) (table_rule table.now) self.old self.new result }
    {
        for &(spelling, value) in table {
            if self.spelt(spelling)? {
                return Ok(Some(value));
            }
        }
        Ok(None)
    }

    // The operator of a level, by its table. Inlined, so where the level is known the spellings are too.
    #[inline(always)]
    fn level_operator(&mut self, level: Level) -> Result<Option<Sign>, Refusal>
        ensures { Operates build_of (level_rule level) self.old self.new result }
    {
        self.first_of(level.table())
    }

    // The operator of a level. A look at the next byte tells most often that there is none.
    #[inline(always)]
    pub(crate) fn operator(&mut self, level: Level) -> Result<Option<Sign>, Refusal>
        ensures { Operates build_of (level_rule level) self.old self.new result }
    {
        if begins_operator(level, self.peek(0)) {
            return self.level_operator(level);
        }
        Ok(None)
    }

    // The operator before an operand.
    #[inline(always)]
    pub(crate) fn unary_operator(&mut self) -> Result<Option<Operator>, Refusal>
        ensures { Operates as_operator unary_operator self.old self.new result }
    {
        self.first_of(&UNARIES)
    }
}

// Whether a byte begins an operator of a level.
#[tactic(auto, unfolding(crate::specs::Signs::begins_operator))]
fn begins_operator(level: Level, b: u8) -> bool
    ensures { result ≡ begins_operator (class_of level) b }
{
    match level {
        Level::Product => matches!(b, b'*' | b'd' | b'm'),
        Level::Sum => matches!(b, b'+' | b'-'),
        Level::Comparison => matches!(b, b'!' | b'<' | b'=' | b'>'),
        Level::Conjunction => b == b'&',
        Level::Disjunction => b == b'|',
        Level::Implication => b == b'=',
        Level::Explication => b == b'<',
        Level::Equivalence => b == b'<',
    }
}
