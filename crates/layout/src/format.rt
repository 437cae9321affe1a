// PrintUtil.dfy's formats of an expression.
ghost use Rattle.std.specs.Prelude.{◌≡◌};
ghost use Rattle.lexing.specs.Answer.{pick};
ghost use Rattle.layout.specs.PrintUtil.{start_indent, deeper_by, Deeper};

#[derive(Clone, Copy, PartialEq, Eq, Debug)]
pub enum ExprFormatOption {
    SingleLine,
    MultipleLines(usize),
}

// An indent one step deeper, or the greatest where it would pass that. No print has one that does.
pub fn deeper(indent: usize, step: usize) -> usize
    ensures { result ≡ deeper_by step indent }
{
    indent.saturating_add(step)
}

impl ExprFormatOption {
    pub fn more(self, step: usize) -> ExprFormatOption
        ensures { result ≡ Deeper step self }
    {
        match self {
            ExprFormatOption::SingleLine => ExprFormatOption::SingleLine,
            ExprFormatOption::MultipleLines(indent) => {
                ExprFormatOption::MultipleLines(deeper(indent, step))
            }
        }
    }

    // The indent that the lines start from; 0 on one line.
    pub fn start_indent(self) -> usize
        ensures { result ≡ start_indent self }
    {
        match self {
            ExprFormatOption::SingleLine => 0,
            ExprFormatOption::MultipleLines(indent) => indent,
        }
    }

    // One format or the other.
    // Kept: `test` is the answer of a test, with no value beside it, and `pick` of specs is this `if`; callers have the method by its name.
    pub fn choose(test: bool, yes: ExprFormatOption, other: ExprFormatOption) -> ExprFormatOption
        ensures { result ≡ pick test yes other }
    {
        if test { yes } else { other }
    }
}
