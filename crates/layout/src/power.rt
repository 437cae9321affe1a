// PrintUtil.dfy's binding strengths.
ghost use Rattle.std.specs.Prelude.{◌≡◌};
ghost use Rattle.layout.specs.PrintUtil.{BreakTieInFavorOfOperator, power, pulls, WinsOver, adjusted, SubexpressionPower};

// Who wins where an operator and its context pull equally.
#[derive(Clone, Copy, PartialEq, Eq, Debug)]
pub enum TieBreaker {
    OperatorWins,
    ContextWins,
    // The operator, where the context is of this family too.
    // Kept: a family is any number, as upstream's `opFamily` is; an enum of the two in use would ask more of callers.
    SameFamilyWins(u8),
}

#[derive(Clone, Copy, PartialEq, Eq, Debug)]
pub enum Side {
    Left,
    Right,
}

// How strongly an operator pulls on the operands at its two ends, or a context on the expression in it.
#[derive(Clone, Copy, PartialEq, Eq, Debug)]
pub struct BindingPower {
    pub left: u16,
    pub right: u16,
    pub tie_breaker: TieBreaker,
}

impl TieBreaker {
    #[inline(always)]
    pub(crate) fn break_tie_in_favor_of_operator(self, context: TieBreaker) -> bool
        ensures { result ≡ BreakTieInFavorOfOperator self context }
    {
        match (self, context) {
            (TieBreaker::OperatorWins, _) | (_, TieBreaker::OperatorWins) => true,
            (TieBreaker::SameFamilyWins(n), TieBreaker::SameFamilyWins(m)) => n == m,
            _ => false,
        }
    }
}

// Whether the operator pulls more strongly than the context, or as strongly where a tie is its own.
// Kept: `tie` is the answer of one test, which both sides share, with no value beside it; an enum of two would say no more than this `bool`.
#[inline(always)]
fn pulls_more(tie: bool, operator: u16, context: u16) -> bool
    ensures { result ≡ pulls tie operator context }
{
    if tie {
        context <= operator
    } else {
        context < operator
    }
}

impl BindingPower {
    pub const INIT: BindingPower = BindingPower {
        left: 0,
        right: 0,
        tie_breaker: TieBreaker::OperatorWins,
    };

    pub const ENDLESS_OPERATOR: BindingPower = BindingPower {
        left: 1000,
        right: 0,
        tie_breaker: TieBreaker::OperatorWins,
    };

    #[inline(always)]
    pub fn new(left: u16, right: u16, tie_breaker: TieBreaker) -> BindingPower
        ensures { result ≡ power left right tie_breaker }
    {
        BindingPower {
            left,
            right,
            tie_breaker,
        }
    }

    // Whether an operator of this strength needs no parentheses in a context. Inlined with what it calls: a print asks it four times for an operator.
    #[inline(always)]
    #[tactic(auto, unfolding(crate::specs::PrintUtil::WinsOver))]
    pub fn wins_over(self, context: BindingPower) -> bool
        ensures { result ≡ WinsOver self context }
    {
        let (tie, other) = (self.tie_breaker, context.tie_breaker);
        let favor = tie.break_tie_in_favor_of_operator(other);
        pulls_more(favor, self.left, context.left) && pulls_more(favor, self.right, context.right)
    }

    // This context, or the one inside parentheses.
    // Kept: `wins` is the answer of `wins_over`, with no value beside it, as in `adjusted` of specs.
    #[inline(always)]
    fn if_not_bracketed(self, wins: bool) -> BindingPower
        ensures { result ≡ adjusted wins self }
    {
        if wins { self } else { BindingPower::INIT }
    }

    // The context of the operand at a side, where an operator of this strength stands in a context.
    #[inline(always)]
    #[tactic(auto, unfolding(crate::specs::PrintUtil::SubexpressionPower))]
    pub fn subexpression_power(self, side: Side, context: BindingPower) -> BindingPower
        ensures { result ≡ SubexpressionPower self side context }
    {
        let inside = context.if_not_bracketed(self.wins_over(context));
        let tie = self.tie_breaker;
        match side {
            Side::Left => BindingPower::new(inside.left, self.left, tie),
            Side::Right => BindingPower::new(self.right, inside.right, tie),
        }
    }
}
